// The answer of `content`, in a module of its own: a type and a function whose names differ only in case may not stand side by side.
use numbers::Refusal;

#[derive(Clone, Copy)]
pub struct Content<'a> {
    pub refusal: Refusal,
    pub part: &'a [u8],
}
