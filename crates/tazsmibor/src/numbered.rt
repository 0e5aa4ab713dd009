// The numbers that a C program is told in place of an answer: a refusal's, or a plain number.
ghost use Rattle.std.specs.Prelude.{◌≡◌, ℕ};
ghost use Rattle.tazsmibor.specs.Exports.{refusal_number};

use arith::refusal::Refusal;

// What is told by a number.
pub trait Numbered {
    ghost number: { Self → ℕ };

    // The number.
    fn number(self) -> u64
        ensures { result ≡ number self };
}

// A refusal, by its reason's number.
impl Numbered for Refusal {
    ghost number = { refusal_number };

    fn number(self) -> u64 {
        self.reason.number()
    }
}

// A number, by itself.
impl Numbered for u64 {
    ghost number = { λ n. n };

    fn number(self) -> u64 {
        self
    }
}
