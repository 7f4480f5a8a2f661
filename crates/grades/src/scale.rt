ghost use Rattle.std.specs.Prelude.{◌≡◌, ℕ, ◌-◌, ◌≤◌, Bool, T, ◌⊎◌, Some, Option, MatchOption, ◌≢◌, nat_le};
ghost use Rattle.std.specs.Option.{option_map};

/// A scale, by its grades. A grade counts by its level alone: two grades of one level are one grade.
pub trait Scale: Copy {
    // the level of a grade, from 0 (the floor) to the height (the top)
    ghost level: { Self → ℕ };

    ghost height: { ℕ };

    // the scale's number in files
    ghost number: { ℕ };

    // the code of the grades of a level
    ghost code: { ℕ → ℕ };

    // the level of the grades that have a code, or nothing where no grade has it
    ghost decode: { ℕ → Option ℕ };

    // whether one grade is at most another
    ghost order: { Self → Self → Bool };

    ghost floor: { Self };

    ghost top: { Self };

    ghost opposite: { Self → Self };

    fn number() -> u8
        ensures { result ≡ number };

    fn height() -> u16
        ensures { result ≡ height };

    // not std's order: `==` of two `Thousandths` would tell numbers of one level apart
    fn at_most(self, other: Self) -> bool
        ensures { result ≡ order self other };

    fn floor() -> Self
        ensures { level result ≡ level floor };

    fn top() -> Self
        ensures { level result ≡ level top };

    fn opposite(self) -> Self
        ensures { level result ≡ level (opposite self) };

    fn code(self) -> u16
        ensures { result ≡ code (level self) };

    /// The grade of a code, or nothing where no grade has that code.
    // no `TryFrom`: its error would say no more than `None`, and its body would be the same `match`
    fn of_code(wanted: u16) -> Option<Self>
        ensures grade { MatchOption result ((x : Self) → code (level x) ≢ wanted) (λ grade. code (level grade) ≡ wanted) }
        ensures decoded { option_map level result ≡ decode wanted };

    // each scale proves every law, those too that follow from others: a law is mostly one line
    ghost positive: { 1 ≤ height };

    ghost limited: { height ≤ 9999 };

    ghost within: { (x : Self) → level x ≤ height };

    ghost ordered: { (x y : Self) → order x y ≡ nat_le (level x) (level y) };

    ghost total: { (x y : Self) → T (order x y) ⊎ T (order y x) };

    ghost floors: { level floor ≡ 0 };

    ghost tops: { level top ≡ height };

    ghost opposites: { (x : Self) → level (opposite x) ≡ height - level x };

    ghost codes: { (x : Self) → code (level x) ≤ 9999 };

    // a code leads back to one level
    ghost decodes: { (x y : Self) → code (level x) ≡ code (level y) → level x ≡ level y };

    // a grade's code leads back to its level
    ghost leads_back: { (x : Self) → decode (code (level x)) ≡ Some (level x) };

    // a code leads to a level only as the code of a grade of that level
    ghost encodes: { (c p : ℕ) → decode c ≡ Some p → (x : Self) × ((level x ≡ p) × (code p ≡ c)) };
}
