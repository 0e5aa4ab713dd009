// The narrowing of one sum for C programs: plain numbers in, a number and the ends' bytes out. The crate `tazsmibor_c` exports it.
ghost use Rattle.std.specs.Prelude.{◌≡◌, ◌≤◌, length};
ghost use Rattle.tazsmibor.specs.Exports.{interval, end_bytes, six_ends, placed, number_in, export_buffer, Exports};

use crate::numbered::Numbered;
use arith::interval::Interval;
use arith::narrow::{Narrowed, narrow};
use arith::refusal::Reason;

// An interval's low end, then its high end, 8 bytes each, low byte first.
#[tactic(auto, using(crate::proofs::Placing::ends_put))]
fn put_ends(out: &mut [u8], i: Interval)
    requires { length out.old ≡ 16 }
    ensures { out.new ≡ end_bytes i }
{
    out[..8].copy_from_slice(&i.low.to_le_bytes());
    out[8..].copy_from_slice(&i.high.to_le_bytes());
}

// The six ends.
#[tactic(auto, using(crate::proofs::Placing::six_put))]
fn put_all(out: &mut [u8], n: Narrowed)
    requires { 48 ≤ length out.old }
    ensures { out.new ≡ placed 0 (six_ends n.x n.a n.b) out.old }
{
    put_ends(&mut out[..16], n.x);
    put_ends(&mut out[16..32], n.a);
    put_ends(&mut out[32..48], n.b);
}

// The answer's number, and its ends in the buffer where there is room.
#[tactic(auto, using(crate::proofs::Placing::room_number, crate::proofs::Placing::room_buffer))]
pub fn put_answer<E: Numbered>(out: &mut [u8], answer: Result<Narrowed, E>) -> u64
    ensures value { result ≡ number_in E.number (length out.old) answer }
    ensures out_after { out.new ≡ export_buffer out.old answer }
{
    match answer {
        Err(refusal) => refusal.number(),
        Ok(narrowed) => {
            if out.len() < 48 {
                return Reason::Short.number();
            }
            put_all(out, narrowed);
            0
        }
    }
}

// 0 or the refusal number; at 0 the six ends, low then high, of x, a, b, in the first 48 bytes, 8 each, low byte first. On any refusal every byte is kept.
#[tactic(auto, using(crate::proofs::Exporting::exported))]
pub fn tazsmibor_narrow(
    width: u64,
    x_low: u64,
    x_high: u64,
    a_low: u64,
    a_high: u64,
    b_low: u64,
    b_high: u64,
    out: &mut [u8],
) -> u64
    ensures { Exports width (interval x_low x_high) (interval a_low a_high) (interval b_low b_high) out.old result out.new }
{
    let x = Interval::new(x_low, x_high);
    let a = Interval::new(a_low, a_high);
    let b = Interval::new(b_low, b_high);
    put_answer(out, narrow(width, x, a, b))
}
