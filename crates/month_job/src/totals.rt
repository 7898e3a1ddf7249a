//! Totals of amounts.
ghost use Rattle.std.specs.Prelude.{◌≡◌, pos, ◌+ℤ◌, fold, FitsSigned};
ghost use Rattle.std.specs.Int.{w128};
ghost use Rattle.std.specs.Option.{SomeIff};

/// The sum of the amounts. It always fits: there are fewer than 2^64 amounts, each of 64 bits.
pub fn total(amounts: &[i64]) -> i128
    ensures { result ≡ fold (λ a x. a +ℤ x) (pos 0) amounts.now }
{
    let mut sum: i128 = 0;
    for amount in amounts {
        sum += i128::from(*amount);
    }
    sum
}

/// A sum with the amounts added to it, or none where that does not fit 128 bits.
pub fn add_total(sum: i128, amounts: &[i64]) -> Option<i128>
    ensures { SomeIff result (FitsSigned w128 (sum +ℤ fold (λ a x. a +ℤ x) (pos 0) amounts.now)) (sum +ℤ fold (λ a x. a +ℤ x) (pos 0) amounts.now) }
{
    sum.checked_add(total(amounts))
}
