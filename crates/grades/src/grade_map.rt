ghost use Rattle.std.specs.Prelude.{◌≡◌, ℕ, ◌-◌, ◌≤◌, Bool, T};

use crate::Scale;

/// A map from the grades of one scale to those of another.
pub trait GradeMap {
    type From: Scale;

    type To: Scale;

    // the level that the grades of a level are taken to
    ghost table: { Self → ℕ → ℕ };

    // whether the map says that it keeps opposites
    ghost keeps: { Self → Bool };

    fn image(&self, grade: Self::From) -> Self::To
        ensures { Self.To.Scale.level result ≡ table self.now (Self.From.Scale.level grade) };

    fn keeps_opposites(&self) -> bool
        ensures { result ≡ keeps self.now };

    ghost ordered: { (f : Self) (p q : ℕ) → p ≤ q → q ≤ Self.From.Scale.height → table f p ≤ table f q };

    ghost floors: { (f : Self) → table f 0 ≡ 0 };

    ghost tops: { (f : Self) → table f Self.From.Scale.height ≡ Self.To.Scale.height };

    // where it says so, the image of the opposite is the opposite of the image
    ghost opposites: { (f : Self) (x : Self.From) → T (keeps f) → table f (Self.From.Scale.height - Self.From.Scale.level x) ≡ Self.To.Scale.height - table f (Self.From.Scale.level x) };
}
