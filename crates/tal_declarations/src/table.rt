use gd_words::List;
use tal_names::names::Names;
use tal_tree::{FileUse, Item, Shape};

/// The shape of an item, and how many words it takes.
#[derive(Clone, Copy)]
pub struct Extent {
    pub shape: Shape,
    pub words: u32,
}

/// What the lines of globals declare: names, the items in order, and how many words these take.
#[derive(Drop)]
pub struct Declared {
    pub names: Names,
    pub items: List<Item>,
    pub words: u32,
}

/// What the headings of procedures declare after the globals: names, how many procedures there are, and which one is
/// MAIN.
#[derive(Drop)]
pub struct Headed {
    pub names: Names,
    pub count: u16,
    pub main: Option<u16>,
}

/// The variables of files, and what each is opened to, in the order of the OPENs.
#[derive(Drop)]
pub struct Files {
    pub names: Names,
    pub uses: List<FileUse>,
}
