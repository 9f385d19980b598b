ghost use Rattle.chart.specs.Charts.{layout};
ghost use Rattle.broker.specs.Alike.{JudgedAlike};

use crate::broker::Broker;
use policy::Book;
use tariff::Tariff;

// Histories that leave the same standing rules: every query gets the same answer and buffers. The contract is the theorem.
pub fn histories_alike<B: Book, T: Tariff>(one: &Broker<B>, other: &Broker<B>, tariff: &T)
    ensures { JudgedAlike (B.Policy.charted one.now.book) (B.Policy.charted other.now.book) (B.Book.fits one.now.book) (B.Book.fits other.now.book) (B.Policy.reading one.now.book) (B.Policy.reading other.now.book) (B.Policy.rules one.now.book) (B.Policy.rules other.now.book) (T.pricing tariff.now) }
{}
