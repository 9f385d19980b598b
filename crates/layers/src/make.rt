// The constructors. The clause `fitting` cites the impls of Book, which cite the structs, so they stand in a file of their
// own; a quote in its place would ask that the policy below be a book. In it `f` says which lists fit the policy below,
// where that is a book; `j` and `k` are the methods of that policy, which no ghost member of a layer looks at.
ghost use Rattle.std.specs.Prelude.{◌≡◌, Bool, List, IfOk};
ghost use mir.Syntax.{Dict};
ghost use Rattle.chart.specs.Charts.{layout};
ghost use Rattle.rules.specs.declared.view.RuleRecord.{RuleRecord};
ghost use Rattle.layers.specs.Questions.{carrier_answer, denials_answer, verdict};
ghost use Rattle.layers.specs.Readings.{carrier_reading, denials_reading};
ghost use Rattle.layers.specs.contracts.carrier.CarrierBook.TheImpl.{ghosts as carrier_book};
ghost use Rattle.layers.specs.contracts.denials.DenialsBook.TheImpl.{ghosts as denials_book};

use crate::carrier::Carrier;
use crate::denial::Denial;
use crate::denials::Denials;
use crate::questions::{check_carrier, check_denials};
use crate::refusal::LayerRefusal;
use policy::Policy;

impl<P: Policy + Drop> Denials<P> {
    // The denials over a policy, or the first refusal.
    pub fn new(below: P, denials: &[Denial]) -> Result<Denials<P>, LayerRefusal>
        ensures answer { verdict result ≡ denials_answer (layout (P.Policy.charted below)) denials.now }
        ensures over { IfOk result (λ d. d.below ≡ below) }
        ensures list { IfOk result (λ d. d.denials.items ≡ denials.now) }
        ensures chart { IfOk result (λ d. ⟦<Denials<P> as Policy>⟧.charted d ≡ P.Policy.charted below) }
        ensures rules { IfOk result (λ d. ⟦<Denials<P> as Policy>⟧.rules d ≡ P.Policy.rules below) }
        ensures reads { IfOk result (λ d. ⟦<Denials<P> as Policy>⟧.reading d ≡ denials_reading denials.now (P.Policy.reading below)) }
        ensures fitting { IfOk result (λ d. (f : P → List RuleRecord → Bool) (j k : Dict) → (denials_book P.row (record { fits = f }) j P.Policy k).fits d ≡ f below) }
    {
        let denials = check_denials(below.chart(), denials)?;
        Ok(Denials { below, denials })
    }
}

impl<P: Policy + Drop> Carrier<P> {
    // The carrier, if any, over a policy, or the refusal.
    pub fn new(below: P, carrier: Option<u16>) -> Result<Carrier<P>, LayerRefusal>
        ensures answer { verdict result ≡ carrier_answer (layout (P.Policy.charted below)) carrier }
        ensures over { IfOk result (λ d. d.below ≡ below) }
        ensures who { IfOk result (λ d. d.carrier ≡ carrier) }
        ensures chart { IfOk result (λ d. ⟦<Carrier<P> as Policy>⟧.charted d ≡ P.Policy.charted below) }
        ensures rules { IfOk result (λ d. ⟦<Carrier<P> as Policy>⟧.rules d ≡ P.Policy.rules below) }
        ensures reads { IfOk result (λ d. ⟦<Carrier<P> as Policy>⟧.reading d ≡ carrier_reading (layout (P.Policy.charted below)) carrier (P.Policy.reading below)) }
        ensures fitting { IfOk result (λ d. (f : P → List RuleRecord → Bool) (j k : Dict) → (carrier_book P.row (record { fits = f }) j P.Policy k).fits d ≡ f below) }
    {
        check_carrier(below.chart(), carrier)?;
        Ok(Carrier { below, carrier })
    }
}
