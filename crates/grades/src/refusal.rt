ghost use Rattle.std.specs.Prelude.{◌≡◌, ℕ};

/// Why a call is refused. Each refusal has its number.
pub trait Refusal {
    ghost number: { Self → ℕ };

    fn number(self) -> u8
        ensures { result ≡ number self };
}
