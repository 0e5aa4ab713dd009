// The narrowing of one sum for C programs: the function of the crate `tazsmibor` under its own name, with its own contract. Rests on that contract.
#![tactic(auto)]

ghost use Rattle.tazsmibor.specs.Exports.{interval, Exports};

// 0 or the refusal number; at 0 the six ends, low then high, of x, a, b, in the first 48 bytes, 8 each, low byte first. On any refusal every byte is kept.
#[unsafe(no_mangle)]
pub extern "C" fn tazsmibor_narrow(
    width: u64,
    x_low: u64,
    x_high: u64,
    a_low: u64,
    a_high: u64,
    b_low: u64,
    b_high: u64,
    out: &mut [u8],
) -> u64
    ensures { Exports width (interval x_low x_high) (interval a_low a_high) (interval b_low b_high) out.old result out.new }
{
    tazsmibor::entry::tazsmibor_narrow(width, x_low, x_high, a_low, a_high, b_low, b_high, out)
}
