// A format: its fraction and exponent bits, the sign bit's weight and infinity's pattern. The functions of `width` alone make one.
ghost use Rattle.arith.specs.Binaries.{IsBinary};

// A format's numbers, with what holds of them.
#[derive(Clone, Copy)]
pub struct Format {
    pub fraction: u64,
    pub exponent: u64,
    pub sign: u64,
    pub infinity: u64,
    pub ghost sound: { IsBinary fraction exponent sign infinity },
}
