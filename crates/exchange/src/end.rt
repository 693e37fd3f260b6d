// How a bank ends.

/// The bank of no parts: a bank is one part and the rest, as `(first, (second, End))`, so that parts of any types stand side
/// by side.
#[derive(Drop)]
pub struct End;
