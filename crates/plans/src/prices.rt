use chart::Grade;
use std::fmt;
use tariff::{ByteTariff, GradeTariff, Tariff};

// A price as it is printed.
#[derive(Drop)]
pub enum PriceText {
    Bytes(u32),
    Graded(Option<Grade>),
}

impl fmt::Display for PriceText {
    fn fmt<W: fmt::Write>(&self, f: &mut fmt::Formatter<W>) -> fmt::Result {
        match self {
            PriceText::Bytes(count) => write!(f, "{count} bytes"),
            PriceText::Graded(None) => write!(f, "nothing"),
            PriceText::Graded(Some(Grade::Quay)) => write!(f, "quay"),
            PriceText::Graded(Some(Grade::Leased)) => write!(f, "leased"),
            PriceText::Graded(Some(Grade::Public)) => write!(f, "public"),
        }
    }
}

// A tariff whose prices can be printed.
pub trait Shown: Tariff {
    fn text(&self, price: Self::Price) -> PriceText;
}

impl Shown for ByteTariff {
    fn text(&self, price: u32) -> PriceText {
        PriceText::Bytes(price)
    }
}

impl Shown for GradeTariff {
    fn text(&self, price: Option<Grade>) -> PriceText {
        PriceText::Graded(price)
    }
}
