// Byte slices: the first place of a byte, the parts before and after it, and the part from a position on.
ghost use Rattle.std.specs.Prelude.{◌≡◌, ◌<◌, min, length, drop, MatchOption};
ghost use Rattle.reader.specs.Bytes.{index_of, before, after, PartOf};

// The index of the first b.
pub(crate) fn find(s: &[u8], b: u8) -> Option<usize>
    ensures { MatchOption result (index_of b s.now ≡ length s.now) (λ n. (n ≡ index_of b s.now) × (n < length s.now)) }
{
    s.iter().position(|c| *c == b)
}

// The parts before and after the first b: all and nothing where there is none.
#[tactic(auto, unfolding(crate::specs::Bytes::before, crate::specs::Bytes::after))]
pub(crate) fn cut(s: &[u8], b: u8) -> (&[u8], &[u8])
    ensures { (result.0.now ≡ before b s.now) × (result.1.now ≡ after b s.now) }
{
    match find(s, b) {
        Some(n) => (&s[..n], &s[n + 1..]),
        None => (s, &s[..0]),
    }
}

// The part from a position on, empty at the end where the position lies past it.
pub(crate) fn rest(s: &[u8], at: usize) -> &[u8]
    ensures { PartOf s.entry (min at (length s.now)) (drop at s.now) result }
{
    &s[at.min(s.len())..]
}
