/// A stop of a processor just before the event that so many events precede.
#[derive(Clone, Copy, PartialEq, Eq)]
pub struct ProcessorStop {
    pub processor: u8,
    pub after: u32,
}
