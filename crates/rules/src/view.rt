use sets::SmallSet;

// What a server may see: these attributes, where they were joined over just this path.
#[derive(Clone, Copy, Default, PartialEq, Eq)]
pub struct View {
    pub server: u16,
    pub attributes: SmallSet,
    pub path: SmallSet,
}

// A rule as it is handed in: its number, and the view that it grants.
#[derive(Clone, Copy, Default, PartialEq, Eq)]
pub struct RuleRecord {
    pub number: u16,
    pub view: View,
}
