//! What a WRITE statement has made so far.

ghost use Rattle.std.specs.Prelude.{◌≤◌, vec_len};

/// The bytes of a WRITE statement so far, and the blanks that are due before the next byte of its
/// record.
#[derive(Drop)]
pub struct Sheet {
    pub bytes: Vec<u8>,
    pub gap: usize,
    /// The most bytes that a WRITE statement writes.
    ghost within: { vec_len bytes ≤ 1048576 },
}
