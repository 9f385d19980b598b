ghost use Rattle.std.specs.Prelude.{◌≡◌, ◌<◌, ◌≤◌, true, length, take, nat_lt};
ghost use Rattle.std.specs.List.{list_all};
ghost use Rattle.chart.specs.Layout.{proper, crosses};

use crate::parts::{Attribute, Grade, Link};

// The servers, relations, attributes, links and lines that were declared. Of each array the first places count, as
// many as were declared; a line's grade stands at the place of its two servers.
#[derive(Clone, Copy)]
pub struct Chart {
    pub(crate) servers: u16,
    pub(crate) relation_count: usize,
    pub(crate) homes: [u16; 32],
    pub(crate) attribute_count: usize,
    pub(crate) attributes: [Attribute; 64],
    pub(crate) link_count: usize,
    pub(crate) links: [Link; 64],
    pub(crate) grades: [Grade; 256],
    ghost sized: { (length homes ≡ 32) × (length attributes ≡ 64) × (length links ≡ 64) × (length grades ≡ 256) },
    ghost counted: { (relation_count ≤ 32) × (attribute_count ≤ 64) × (link_count ≤ 64) },
    ghost manned: { (0 < servers) × (servers ≤ 16) },
    ghost homed: { list_all (λ s. nat_lt s servers) (take relation_count homes) ≡ true },
    ghost owned: { list_all (proper relation_count) (take attribute_count attributes) ≡ true },
    ghost crossed: { list_all (λ x. crosses (take attribute_count attributes) x.left x.right) (take link_count links) ≡ true },
}
