// One record on the intervals of its cells: what it leaves of them.
ghost use Rattle.std.specs.Prelude.{◌≡◌};
ghost use Rattle.propagation.specs.RecordSteps.{turned, three_answer, alike_of, zero_answer, turn_other, two_answer, in_roles, mirror_answer, neg_answer, answer_by, record_answer};
ghost use Rattle.arith.specs.Repeats.{absorbing, pair_of};

use arith::interval::Interval;
use arith::narrow::Narrowed;
use arith::refusal::{Reason, Refusal};
use arith::repeated::{Paired, narrow_absorb, narrow_double};
use machine::narrow::narrow;
use sheet::kept::Record;
use sheet::kind::Kind;

// The places of a record in which one cell stands.
#[derive(Clone, Copy)]
pub(crate) enum Alike {
    XA,
    XB,
    AB,
    All,
}

// Which of the numbers x, a and b are one, if any are.
fn alike_of(x: u64, a: u64, b: u64) -> Option<Alike>
    ensures { result ≡ alike_of x a b }
{
    match (x == a, x == b, a == b) {
        (true, true, _) => Some(Alike::All),
        (true, false, _) => Some(Alike::XA),
        (false, true, _) => Some(Alike::XB),
        (false, false, true) => Some(Alike::AB),
        (false, false, false) => None,
    }
}

// The second interval of a diff is mirrored, that of a sum is not.
fn turn(width: u64, kind: Kind, i: Interval) -> Interval
    ensures { result ≡ turned width kind i }
{
    match kind {
        Kind::Diff => i.mirror_ends(width),
        Kind::Sum | Kind::Neg => i,
    }
}

// The first interval as it came, and zero alone of the second; 11 where zero is not in it.
fn with_zero(width: u64, p: Interval, q: Interval) -> Result<Paired, Refusal>
    ensures { result ≡ zero_answer width p q }
{
    let z = q.cut(width, Interval::new(0, 0))?.ok_or(Reason::NoTriple)?;
    Ok(Paired { p, q: z })
}

// A pair as the x, a and b of its record.
fn in_roles(alike: Alike, p: Interval, q: Interval) -> Narrowed
    ensures { result ≡ in_roles alike p q }
{
    match alike {
        Alike::XA => Narrowed { x: p, a: p, b: q },
        Alike::XB => Narrowed { x: p, a: q, b: p },
        Alike::AB => Narrowed { x: q, a: p, b: p },
        Alike::All => Narrowed { x: q, a: q, b: q },
    }
}

// The intervals of a record's cells, at a width.
#[derive(Clone, Copy)]
pub(crate) struct Held {
    pub(crate) width: u64,
    pub(crate) x: Interval,
    pub(crate) a: Interval,
    pub(crate) b: Interval,
}

impl Held {
    // A sum or a diff over three cells. The narrowing has one call, since it is only then built into its caller.
    fn narrow_three(self, kind: Kind) -> Result<Narrowed, Refusal>
        ensures { result ≡ three_answer self.width kind self.x self.a self.b }
    {
        let second = turn(self.width, kind, self.a);
        let n = narrow(self.width, self.x, second, self.b)?;
        Ok(Narrowed {
            a: turn(self.width, kind, n.a),
            ..n
        })
    }

    // A sum or a diff whose x is its b: what x absorbs, and with the mirror of a for a diff.
    fn at_rest(self, kind: Kind) -> Result<Paired, Refusal>
        ensures { result ≡ turn_other self.width kind (pair_of absorbing self.width self.x (turned self.width kind self.a)) }
    {
        let n = narrow_absorb(self.width, self.x, turn(self.width, kind, self.a))?;
        Ok(Paired {
            q: turn(self.width, kind, n.q),
            ..n
        })
    }

    // A sum or a diff with one cell in two places: what is left of that cell and of the other. With one cell in all three the second is what is left of it, zero.
    fn narrow_two(self, kind: Kind, alike: Alike) -> Result<Paired, Refusal>
        ensures { result ≡ two_answer self.width kind alike self.x self.a self.b }
    {
        let Held { width, x, a, b } = self;
        match (alike, kind) {
            (Alike::XA, Kind::Diff) => with_zero(width, x, b),
            (Alike::XA, _) => narrow_double(width, x, b),
            (Alike::XB, _) => self.at_rest(kind),
            (Alike::AB, Kind::Diff) => narrow_double(width, a, x),
            (Alike::AB, _) => narrow_absorb(width, a, x),
            (Alike::All, _) => with_zero(width, x, x),
        }
    }

    // A neg over two cells: what x shares with the mirror of a, and the mirror of that; b as it came. 11 where nothing is shared.
    fn narrow_mirror(self) -> Result<Narrowed, Refusal>
        ensures { result ≡ mirror_answer self.width self.x self.a self.b }
    {
        let Held { width, x, a, b } = self;
        let m = a.mirror_ends(width);
        let p = x.cut(width, m)?.ok_or(Reason::NoTriple)?;
        Ok(Narrowed {
            x: p,
            a: p.mirror_ends(width),
            b,
        })
    }

    // A neg; over one cell only zero is left of it.
    fn narrow_neg(self, one: bool) -> Result<Narrowed, Refusal>
        ensures { result ≡ neg_answer self.width one self.x self.a self.b }
    {
        if !one {
            return self.narrow_mirror();
        }
        let q = with_zero(self.width, self.x, self.x)?.q;
        Ok(Narrowed {
            x: q,
            a: q,
            b: self.b,
        })
    }

    // A sum or a diff, by which of its numbers are one.
    fn narrow_sum(self, kind: Kind, r: Record) -> Result<Narrowed, Refusal>
        ensures { result ≡ answer_by (alike_of r.x r.a r.b) self.width kind self.x self.a self.b }
    {
        match alike_of(r.x, r.a, r.b) {
            None => self.narrow_three(kind),
            Some(alike) => self
                .narrow_two(kind, alike)
                .map(|n| in_roles(alike, n.p, n.q)),
        }
    }

    // The intervals of the record's cells, narrowed; the third interval of a neg as it came. 11 where it has no solution. A number that is no kind's counts as that of a neg.
    #[tactic(auto, unfolding(crate::specs::RecordSteps::record_answer), using(sheet::proofs::Records::kind_told))]
    pub(crate) fn narrow_record(self, r: Record) -> Result<Narrowed, Refusal>
        ensures { result ≡ record_answer self.width r self.x self.a self.b }
    {
        let kind = Kind::try_from(r.kind).unwrap_or(Kind::Neg);
        match kind {
            Kind::Sum | Kind::Diff => self.narrow_sum(kind, r),
            Kind::Neg => self.narrow_neg(r.x == r.a),
        }
    }
}
