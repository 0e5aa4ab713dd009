// The forward sum for C, for the native tests and the benchmark alone. Rests on the contracts of the crate `arith`.
#![tactic(auto)]

ghost use Rattle.test_exports.specs.Exports.{ExportsSum};

use arith::sum::add;

// The forward sum: 0 with the pattern, the mark and the remainder in `out`, or the refusal number with `out` as it was.
#[unsafe(no_mangle)]
pub extern "C" fn test_add(width: u64, x: u64, a: u64, out: &mut [u64; 3]) -> u64
    ensures { ExportsSum width x a out.old result out.new }
{
    match add(width, x, a) {
        Ok(sum) => {
            *out = [sum.pattern, sum.mark.number(), sum.remainder];
            0
        }
        Err(refusal) => refusal.reason.number(),
    }
}
