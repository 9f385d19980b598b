use sets::SmallSet;

// A server that may not see these attributes together, on whatever path.
#[derive(Clone, Copy, Default)]
pub struct Denial {
    pub server: u16,
    pub attributes: SmallSet,
}
