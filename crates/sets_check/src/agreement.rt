use foreign::mark::Mark;
use patches::patch_set::PatchSet;

/// For how many rows, from 0 up to the one after the row past the last, two sets give the same three answers.
pub fn agreeing<A: PatchSet<Value = Mark>, B: PatchSet<Value = Mark>>(a: &A, b: &B) -> u64 {
    (0..a.rows().wrapping_add(2))
        .filter(|row| {
            a.below(*row) == b.below(*row)
                && a.next(*row) == b.next(*row)
                && a.find(*row) == b.find(*row)
        })
        .count() as u64
}
