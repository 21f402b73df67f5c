// Where the frame of one box stands on a tape: from `start` up to `end`, and not with it.
#[derive(Clone, Copy, Debug)]
pub(crate) struct Span {
    pub start: usize,
    pub end: usize,
}
