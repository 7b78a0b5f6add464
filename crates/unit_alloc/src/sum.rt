ghost use Rattle.std.specs.Prelude.{◌≡◌, ◌+◌, ◌==◌};

/// The number is the sum of the other two, which need not fit their type.
pub(crate) fn is_sum(number: u32, first: u32, second: u32) -> bool
    ensures { result ≡ (number == first + second) }
{
    number >= first && number - first == second
}
