// The editions of the layout: in the first a channel record stands in a Ctab, in the second in a Ctb2 (000, 4.6.3.5).
#[derive(Clone, Copy, PartialEq, Eq)]
pub enum Edition {
    First,
    Second,
}
