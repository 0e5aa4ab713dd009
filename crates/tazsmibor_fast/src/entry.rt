// The narrowing of one sum for C programs, by the machine's floats: plain numbers in, a number and the ends' bytes out. Asks for the default floating-point environment in the calling thread.
ghost use Rattle.tazsmibor.specs.Exports.{interval, Exports};

use arith::interval::Interval;
use machine::narrow::narrow;
use tazsmibor::entry::put_answer;

// Its body is that of `tazsmibor_narrow` but for the narrowing: a function for both would take that as a closure, and so have a `requires`.
// The answer of `tazsmibor_narrow`, sooner: 0 or the refusal number; at 0 the six ends in the first 48 bytes. On any refusal every byte is kept.
#[tactic(auto, using(tazsmibor::proofs::Exporting::exported))]
#[unsafe(no_mangle)]
pub extern "C" fn tazsmibor_narrow_fast(
    width: u64,
    x_low: u64,
    x_high: u64,
    a_low: u64,
    a_high: u64,
    b_low: u64,
    b_high: u64,
    out: &mut [u8],
) -> u64
    ensures { Exports width (interval x_low x_high) (interval a_low a_high) (interval b_low b_high) out.old result out.new }
{
    let x = Interval::new(x_low, x_high);
    let a = Interval::new(a_low, a_high);
    let b = Interval::new(b_low, b_high);
    put_answer(out, narrow(width, x, a, b))
}
