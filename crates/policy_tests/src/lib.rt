// Tests of rules, books, lists and layers, at their edges.
#![tactic(auto)]

#[cfg(test)]
mod tests {
    use books::{ExactBook, SealedList};
    use chart::Chart;
    use composed::{AnyBook, ComposedBook};
    use layers::{Carrier, Denial, Denials, LayerRefusal};
    use policy::{Book, BookRefusal, Policy};
    use profile::Profile;
    use rules::{RuleRecord, View};
    use sets::SmallSet;
    use std::process::Abort;
    use std::test::Fail;

    // A digit's number, a letter's from 10 on, and for all else one that no set has.
    fn digit(b: u8) -> u16 {
        match b {
            b'0'..=b'9' => (b - b'0') as u16,
            b'a'..=b'z' => (b - b'a') as u16 + 10,
            _ => 64,
        }
    }

    // The set with a number too; a number that no set has is passed over.
    fn with(set: SmallSet, i: u16) -> SmallSet {
        set.insert(i).unwrap_or(set)
    }

    // The set at a place, from 0, of a text such as "0,4; 0; -".
    fn part(text: &str, place: usize) -> SmallSet {
        let named = text.split(';').nth(place).unwrap_or("");
        named.bytes().map(digit).fold(SmallSet::empty(), with)
    }

    // The set of the numbers below 12 whose bits are set.
    fn from_bits(bits: u16) -> SmallSet {
        (0..12)
            .filter(|i| (bits >> *i) & 1 == 1)
            .fold(SmallSet::empty(), with)
    }

    fn record(number: u16, server: u16, attributes: SmallSet, path: SmallSet) -> RuleRecord {
        let view = View {
            server,
            attributes,
            path,
        };
        RuleRecord { number, view }
    }

    // A rule with its attributes and its path.
    fn rule(number: u16, server: u16, view: &str) -> RuleRecord {
        record(number, server, part(view, 0), part(view, 1))
    }

    fn deny(server: u16, attributes: &str) -> Denial {
        Denial {
            server,
            attributes: part(attributes, 0),
        }
    }

    // Whether a server may see a profile: shown, path, filtered.
    fn sees<P: Policy>(policy: &P, server: u16, profile: &str) -> bool {
        let profile = Profile {
            shown: part(profile, 0),
            path: part(profile, 1),
            filtered: part(profile, 2),
        };
        policy.allows(server, &profile)
    }

    // Whether two policies answer alike: servers below 4, links below 3, attributes below 12.
    fn alike<P: Policy, Q: Policy>(a: &P, b: &Q) -> bool {
        (0..32768).all(|bits| {
            let profile = Profile {
                shown: from_bits(bits % 4096),
                path: from_bits(bits / 4096),
                ..Profile::default()
            };
            (0..4).all(|server| a.allows(server, &profile) == b.allows(server, &profile))
        })
    }

    // 0 for an accepted call, else the number of the refusal.
    fn code(answer: Result<(), BookRefusal>) -> u16 {
        answer.err().map_or(0, |refusal| refusal.number())
    }

    fn enter<B: Book>(book: &mut B, given: RuleRecord) -> u16 {
        code(book.enter(given))
    }

    fn withdraw<B: Book>(book: &mut B, number: u16) -> u16 {
        code(book.withdraw(number))
    }

    fn layer_code<L: Drop>(answer: Result<L, LayerRefusal>) -> u16 {
        answer.err().map_or(0, |refusal| refusal.number())
    }

    // Three servers with a relation each (attributes 0 to 2, 3 and 4, 5 and 6), and two links.
    fn worked(rt: &impl Abort, links: [(u16, u16); 2]) -> Result<Chart, Fail> {
        let Ok(mut chart) = Chart::new(3) else {
            return Err(Fail::new("no chart"));
        };
        assert!(rt; chart.add_relation(0, &[4, 8, 4]).is_ok());
        assert!(rt; chart.add_relation(1, &[4, 6]).is_ok());
        assert!(rt; chart.add_relation(2, &[4, 10]).is_ok());
        for (a, b) in links {
            assert!(rt; chart.add_link(a, b).is_ok());
        }
        Ok(chart)
    }

    // Links 0 from 0 to 3 and 1 from 3 to 5.
    fn chain(rt: &impl Abort) -> Result<Chart, Fail> {
        worked(rt, [(0, 3), (3, 5)])
    }

    // A book of either kind with these rules.
    fn with_rules(rt: &impl Abort, mut book: AnyBook, rules: &[RuleRecord]) -> AnyBook {
        for given in rules {
            assert_eq!(rt; enter(&mut book, *given), 0);
        }
        book
    }

    fn exact(rt: &impl Abort, rules: &[RuleRecord]) -> Result<AnyBook, Fail> {
        Ok(with_rules(rt, AnyBook::Exact(ExactBook::new(chain(rt)?)), rules))
    }

    fn composing(rt: &impl Abort, rules: &[RuleRecord]) -> Result<AnyBook, Fail> {
        Ok(with_rules(rt, AnyBook::Composed(ComposedBook::new(chain(rt)?)), rules))
    }

    #[test]
    fn rule_questions(rt: HostRuntime) -> Result<(), Fail> {
        let mut before = ExactBook::new(chain(&rt)?);
        assert_eq!(rt; enter(&mut before, rule(500, 2, "0,1; -")), 0);
        for (given, expected) in [
            (rule(0, 3, "-; 2"), 20),
            (rule(1000, 0, "0; -"), 20),
            (rule(65535, 0, "0; -"), 20),
            (rule(1, 0, "0; -"), 0),
            (rule(999, 2, "6; -"), 0),
            (rule(1, 3, "-; 2"), 21),
            (rule(1, 0, "-; 2"), 22),
            (rule(1, 0, "7; -"), 22),
            (rule(1, 0, "0; 2"), 23),
            (rule(1, 0, "0,3; -"), 23),
            (rule(1, 0, "0; 0"), 0),
            (rule(1, 0, "0,3; 0"), 0),
            (rule(1, 0, "0,5; 0"), 23),
            (rule(1, 0, "0,5; 1"), 23),
            (rule(1, 0, "0,5; 0,1"), 0),
            (rule(500, 0, "0,3; -"), 23),
            (rule(500, 0, "0; -"), 24),
        ] {
            let mut book = before;
            assert_eq!(rt; enter(&mut book, given), expected);
            assert!(rt; alike(&book, &before) == (expected > 0));
        }
        Ok(())
    }

    // Two links between the same relations: each alone is a tree, both are a cycle.
    #[test]
    fn cycle(rt: HostRuntime) -> Result<(), Fail> {
        let mut book = ExactBook::new(worked(&rt, [(0, 3), (1, 4)])?);
        assert_eq!(rt; enter(&mut book, rule(1, 0, "0,3; 0,1")), 23);
        assert_eq!(rt; enter(&mut book, rule(1, 0, "0,3; 0")), 0);
        assert_eq!(rt; enter(&mut book, rule(2, 0, "0,3; 1")), 0);
        Ok(())
    }

    // 64 rules of equal content fit, in any book on the worked chart.
    fn rule_limit<B: Book + Copy>(rt: &impl Abort, mut book: B) {
        assert_eq!(rt; withdraw(&mut book, 1), 26);
        for number in 1..65u16 {
            assert_eq!(rt; enter(&mut book, rule(number, 0, "0; -")), 0);
        }
        let full = book;
        assert_eq!(rt; enter(&mut book, rule(65, 0, "0; -")), 25);
        assert_eq!(rt; enter(&mut book, rule(65, 1, "3; -")), 25);
        assert_eq!(rt; enter(&mut book, rule(64, 1, "3; -")), 24);
        assert_eq!(rt; enter(&mut book, rule(64, 1, "7; -")), 22);
        for number in [0, 65, 999, 65535] {
            assert_eq!(rt; withdraw(&mut book, number), 26);
        }
        assert!(rt; alike(&book, &full));
        assert_eq!(rt; withdraw(&mut book, 33), 0);
        assert!(rt; alike(&book, &full));
        assert_eq!(rt; withdraw(&mut book, 33), 26);
        assert_eq!(rt; enter(&mut book, rule(65, 1, "3; -")), 0);
        assert!(rt; sees(&book, 1, "3; -; -") && !sees(&full, 1, "3; -; -"));
        assert_eq!(rt; enter(&mut book, rule(33, 0, "0; -")), 25);
    }

    #[test]
    fn rule_limits(rt: HostRuntime) -> Result<(), Fail> {
        rule_limit(&rt, ExactBook::new(chain(&rt)?));
        rule_limit(&rt, ComposedBook::new(chain(&rt)?));
        rule_limit(&rt, exact(&rt, &[])?);
        rule_limit(&rt, composing(&rt, &[])?);
        Ok(())
    }

    // What one rule lets be seen, in any book on the worked chart.
    fn one_rule<B: Book>(rt: &impl Abort, book: &mut B) {
        assert_eq!(rt; enter(book, rule(7, 1, "0,1; -")), 0);
        assert!(rt; !sees(book, 1, "0,1; -; 2"));
        assert_eq!(rt; withdraw(book, 7), 0);
        assert_eq!(rt; enter(book, rule(7, 1, "0,1,2; -")), 0);
        assert!(rt; sees(book, 1, "0,1; -; 2"));
        assert!(rt; sees(book, 1, "-; -; -"));
        assert!(rt; !sees(book, 1, "0,3; -; 2") && !sees(book, 1, "0; -; 3"));
        assert!(rt; !sees(book, 0, "0,1; -; 2") && !sees(book, 2, "0,1; -; 2"));
        assert!(rt; !sees(book, 1, "0,1; 0; 2"));
        assert_eq!(rt; withdraw(book, 7), 0);
        assert!(rt; !sees(book, 1, "0,1; -; 2") && !sees(book, 1, "-; -; -"));
    }

    #[test]
    fn reading(rt: HostRuntime) -> Result<(), Fail> {
        one_rule(&rt, &mut ExactBook::new(chain(&rt)?));
        one_rule(&rt, &mut ComposedBook::new(chain(&rt)?));
        Ok(())
    }

    // A rule on a path allows that path alone.
    #[test]
    fn paths(rt: HostRuntime) -> Result<(), Fail> {
        let book = exact(&rt, &[rule(1, 2, "0,3,4; 0")])?;
        assert!(rt; sees(&book, 2, "0,4; 0; 3") && !sees(&book, 2, "0; -; -"));
        assert!(rt; !sees(&book, 2, "0; 1; -") && !sees(&book, 2, "0; 0,1; -"));
        Ok(())
    }

    #[test]
    fn composition(rt: HostRuntime) -> Result<(), Fail> {
        let rules = [rule(1, 1, "0,1; -"), rule(2, 1, "3,4; -")];
        assert!(rt; !sees(&exact(&rt, &rules)?, 1, "0,4; 0; -"));
        let both = composing(&rt, &rules)?;
        assert!(rt; sees(&both, 1, "0,4; 0; -") && sees(&both, 1, "1; 0; 3"));
        assert!(rt; !sees(&both, 2, "0,4; 0; -") && !sees(&both, 1, "0,4; -; -"));
        assert!(rt; !sees(&both, 1, "2; 0; -") && !sees(&both, 1, "0; 0,1; -"));
        for number in [1, 2] {
            let mut one = both;
            assert_eq!(rt; withdraw(&mut one, number), 0);
            assert!(rt; !sees(&one, 1, "0,4; 0; -"));
            assert!(rt; sees(&one, 1, "0; -; -") == (number == 2));
            assert!(rt; sees(&one, 1, "4; -; -") == (number == 1));
        }
        let mut three = both;
        assert_eq!(rt; enter(&mut three, rule(3, 1, "5,6; -")), 0);
        assert!(rt; sees(&three, 1, "1,6; 0,1; 4"));
        assert_eq!(rt; withdraw(&mut three, 2), 0);
        assert!(rt; !sees(&three, 1, "1,6; 0,1; -"));
        Ok(())
    }

    // Rules of two servers do not compose, nor those that lack an end of the link or share a relation.
    #[test]
    fn no_composition(rt: HostRuntime) -> Result<(), Fail> {
        for (a, b) in [
            (rule(1, 1, "0,1; -"), rule(2, 2, "3,4; -")),
            (rule(1, 1, "1,2; -"), rule(2, 1, "3,4; -")),
            (rule(1, 1, "0,1; -"), rule(2, 1, "4; -")),
            (rule(1, 1, "0,1; -"), rule(2, 1, "0,3,4; 0")),
        ] {
            assert!(rt; alike(&composing(&rt, &[a, b])?, &exact(&rt, &[a, b])?));
        }
        Ok(())
    }

    // 15 rules on each side of a link have 225 compositions, which makes 255 members.
    fn many_members(rt: &impl Abort) -> Result<ComposedBook, Fail> {
        let Ok(mut chart) = Chart::new(2) else {
            return Err(Fail::new("no chart"));
        };
        assert!(rt; chart.add_relation(0, &[1; 5]).is_ok());
        assert!(rt; chart.add_relation(1, &[1; 5]).is_ok());
        assert!(rt; chart.add_relation(1, &[1; 2]).is_ok());
        assert!(rt; chart.add_link(0, 5).is_ok());
        let mut book = ComposedBook::new(chart);
        for n in 0..15u16 {
            let left = from_bits(2 * n + 1);
            let right = from_bits(32 * (2 * n + 1));
            assert_eq!(rt;
                enter(&mut book, record(2 * n + 1, 0, left, SmallSet::empty())),
                0
            );
            assert_eq!(rt;
                enter(&mut book, record(2 * n + 2, 0, right, SmallSet::empty())),
                0
            );
        }
        Ok(book)
    }

    #[test]
    fn member_limit(rt: HostRuntime) -> Result<(), Fail> {
        let mut book = many_members(&rt)?;
        assert_eq!(rt; enter(&mut book, rule(31, 1, "a; -")), 0);
        let full = book;
        assert_eq!(rt; enter(&mut book, rule(32, 1, "b; -")), 25);
        assert_eq!(rt; enter(&mut book, rule(31, 1, "b; -")), 24);
        assert_eq!(rt; enter(&mut book, rule(32, 1, "c; -")), 22);
        assert!(rt; alike(&book, &full));
        // of equal content, so no more members
        assert_eq!(rt; enter(&mut book, rule(33, 1, "a; -")), 0);
        assert_eq!(rt; enter(&mut book, rule(34, 0, "0,5; 0")), 0);
        assert!(rt; alike(&book, &full));
        assert_eq!(rt; withdraw(&mut book, 31), 0);
        assert!(rt; alike(&book, &full));
        assert_eq!(rt; enter(&mut book, rule(35, 1, "b; -")), 25);
        assert_eq!(rt; withdraw(&mut book, 33), 0);
        assert!(rt; !sees(&book, 1, "a; -; -") && sees(&full, 1, "a; -; -"));
        assert_eq!(rt; enter(&mut book, rule(35, 1, "b; -")), 0);
        assert!(rt; sees(&book, 1, "b; -; -"));
        let before = book;
        assert_eq!(rt; enter(&mut book, rule(36, 0, "a,b; -")), 25);
        assert!(rt; alike(&book, &before));
        Ok(())
    }

    // The number of the first refused record and of its refusal, or zeros.
    fn first_fault(chart: &Chart, records: &[RuleRecord]) -> (u16, u16) {
        SealedList::check(chart, records)
            .err()
            .map_or((0, 0), |fault| (fault.number, fault.refusal.number()))
    }

    #[test]
    fn sealed_faults(rt: HostRuntime) -> Result<(), Fail> {
        let chart = chain(&rt)?;
        let none = ExactBook::new(chart);
        let good = rule(5, 1, "0; -");
        for (second, third, fault) in [
            (rule(6, 1, "0; -"), rule(5, 1, "3; -"), (5, 24)),
            (rule(5, 3, "0; -"), rule(6, 1, "0; -"), (5, 21)),
            (rule(6, 1, "7; -"), rule(5, 1, "3; -"), (6, 22)),
            (rule(6, 1, "0; -"), rule(7, 1, "0,3; -"), (7, 23)),
            (rule(1000, 1, "0; -"), rule(0, 1, "0; -"), (1000, 20)),
        ] {
            let records = [good, second, third];
            let (number, refusal) = first_fault(&chart, &records);
            assert_eq!(rt; number, fault.0);
            assert_eq!(rt; refusal, fault.1);
            assert!(rt; alike(&SealedList::new(chart, &records), &none));
        }
        assert!(rt; first_fault(&chart, &[]) == (0, 0));
        assert!(rt; alike(&SealedList::new(chart, &[]), &none));
        Ok(())
    }

    // Gives the records the numbers from 101 on.
    fn number_all(records: &mut [RuleRecord]) {
        for (i, record) in records.iter_mut().enumerate() {
            record.number = (i % 800) as u16 + 101;
        }
    }

    #[test]
    fn sealed_limit(rt: HostRuntime) -> Result<(), Fail> {
        let chart = chain(&rt)?;
        let mut all = [rule(1, 1, "0,1; -"); 65];
        all[63].view = rule(1, 2, "3,4; -").view;
        number_all(&mut all);
        let records: &[RuleRecord] = &all;
        assert!(rt; records.len() == 65);
        assert!(rt; first_fault(&chart, &records[0..64]) == (0, 0));
        assert!(rt; first_fault(&chart, records) == (165, 25));
        let list = SealedList::new(chart, &records[0..64]);
        assert!(rt; alike(&list, &exact(&rt, &records[0..64])?));
        assert!(rt; sees(&list, 2, "3; -; 4") && !sees(&list, 1, "3; -; -"));
        assert!(rt; alike(&SealedList::new(chart, records), &exact(&rt, &[])?));
        Ok(())
    }

    // A list does not compose.
    #[test]
    fn sealed_reading(rt: HostRuntime) -> Result<(), Fail> {
        let rules = [rule(1, 1, "0,1; -"), rule(2, 1, "3,4; -")];
        let list = SealedList::new(chain(&rt)?, &rules);
        assert!(rt; sees(&list, 1, "0; -; 1") && sees(&list, 1, "3,4; -; -"));
        assert!(rt; !sees(&list, 1, "0,4; 0; -"));
        assert!(rt; alike(&list, &exact(&rt, &rules)?) && !alike(&list, &composing(&rt, &rules)?));
        Ok(())
    }

    #[test]
    fn denial_reading(rt: HostRuntime) -> Result<(), Fail> {
        let rules = [rule(1, 2, "0,3,4; 0"), rule(2, 1, "0,3,4; 0")];
        for book in [exact(&rt, &rules)?, composing(&rt, &rules)?] {
            assert!(rt; sees(&book, 2, "0,3; 0; -"));
            let Ok(guarded) = Denials::new(book, &[deny(2, "0,3")]) else {
                return Err(Fail::new("no denials"));
            };
            assert!(rt; sees(&guarded, 2, "0,4; 0; -"));
            assert!(rt; sees(&guarded, 2, "3; 0; 4"));
            assert!(rt; !sees(&guarded, 2, "0,3; 0; -"));
            assert!(rt; !sees(&guarded, 2, "0; 0; 3"));
            assert!(rt; !sees(&guarded, 2, "4; 0; 0,3"));
            assert!(rt; sees(&guarded, 1, "0,3; 0; -"));
            assert!(rt; !sees(&guarded, 1, "0,3; -; -"));
            let Ok(open) = Denials::new(book, &[]) else {
                return Err(Fail::new("no denials"));
            };
            assert!(rt; alike(&open, &book));
        }
        Ok(())
    }

    #[test]
    fn denial_questions(rt: HostRuntime) -> Result<(), Fail> {
        let book = exact(&rt, &[rule(1, 2, "0,1; -")])?;
        for (denial, expected) in [
            (deny(2, "0,6"), 0),
            (deny(3, "0"), 17),
            (deny(65535, "0"), 17),
            (deny(0, "7"), 17),
            (deny(0, "0,z"), 17),
            (deny(0, "-"), 17),
        ] {
            assert_eq!(rt; layer_code(Denials::new(book, &[denial])), expected);
        }
        let mut many = [deny(2, "6"); 34];
        many[31] = deny(2, "1");
        many[33] = deny(2, "7");
        assert_eq!(rt; layer_code(Denials::new(book, &many[0..33])), 18);
        assert_eq!(rt; layer_code(Denials::new(book, &many)), 18);
        let Ok(guarded) = Denials::new(book, &many[0..32]) else {
            return Err(Fail::new("no denials"));
        };
        assert!(rt; sees(&guarded, 2, "0; -; -") && !sees(&guarded, 2, "1; -; -"));
        many[32] = deny(2, "7");
        assert_eq!(rt; layer_code(Denials::new(book, &many[0..33])), 17);
        Ok(())
    }

    #[test]
    fn carriers(rt: HostRuntime) -> Result<(), Fail> {
        let book = composing(&rt, &[rule(1, 1, "0,1; -")])?;
        for (carrier, expected) in [(0, 0), (2, 0), (3, 17), (65535, 17)] {
            assert_eq!(rt; layer_code(Carrier::new(book, Some(carrier))), expected);
        }
        let Ok(carried) = Carrier::new(book, Some(2)) else {
            return Err(Fail::new("no carrier"));
        };
        assert!(rt; sees(&carried, 2, "0,1,2,3,4,5,6; 0,1; 0,6"));
        assert!(rt; sees(&carried, 2, "0,6; -; -") && sees(&carried, 2, "-; 1; -"));
        assert!(rt; !sees(&carried, 2, "7; -; -") && !sees(&carried, 2, "0; -; 7"));
        assert!(rt; !sees(&carried, 2, "0; 2; -") && !sees(&carried, 2, "z; z; -"));
        assert!(rt; sees(&carried, 1, "0; -; 1") && !sees(&carried, 1, "2; -; -"));
        assert!(rt; !sees(&carried, 0, "0; -; -") && !sees(&carried, 3, "0; -; -"));
        let Ok(nobody) = Carrier::new(book, None) else {
            return Err(Fail::new("no carrier"));
        };
        assert!(rt; alike(&nobody, &book) && !alike(&carried, &book));
        Ok(())
    }

    // Denials of 0 and 3 for server 2, over a carrier.
    fn stack(book: AnyBook, carrier: u16) -> Result<Denials<Carrier<AnyBook>>, Fail> {
        let Ok(carried) = Carrier::new(book, Some(carrier)) else {
            return Err(Fail::new("no carrier"));
        };
        Denials::new(carried, &[deny(2, "0,3")]).map_err(|_| Fail::new("no denials"))
    }

    // The upper layer has the last word.
    #[test]
    fn layer_order(rt: HostRuntime) -> Result<(), Fail> {
        let book = exact(&rt, &[])?;
        let above = stack(book, 2)?;
        assert!(rt; sees(&above, 2, "0,4; 0; -") && !sees(&above, 2, "0,3; 0; -"));
        let Ok(guarded) = Denials::new(book, &[deny(2, "0,3")]) else {
            return Err(Fail::new("no denials"));
        };
        let Ok(below) = Carrier::new(guarded, Some(2)) else {
            return Err(Fail::new("no carrier"));
        };
        assert!(rt; sees(&below, 2, "0,3; 0; -"));
        Ok(())
    }

    // Calls on a stack reach its book, and a refused one changes nothing.
    #[test]
    fn stacks(rt: HostRuntime) -> Result<(), Fail> {
        let rules = [rule(1, 2, "0,1; -"), rule(2, 2, "3,4; -")];
        for (empty, full) in [
            (exact(&rt, &[])?, exact(&rt, &rules)?),
            (composing(&rt, &[])?, composing(&rt, &rules)?),
        ] {
            let mut guarded = stack(empty, 0)?;
            for given in rules {
                assert_eq!(rt; enter(&mut guarded, given), 0);
            }
            assert_eq!(rt; enter(&mut guarded, rule(2, 1, "0; -")), 24);
            assert_eq!(rt; enter(&mut guarded, rule(0, 1, "0; -")), 20);
            assert_eq!(rt; withdraw(&mut guarded, 3), 26);
            assert!(rt; alike(&guarded, &stack(full, 0)?) && !alike(&guarded, &full));
            assert!(rt; sees(&guarded, 2, "1,4; 0; -") == sees(&full, 2, "1,4; 0; -"));
            assert!(rt; !sees(&guarded, 2, "0,3; 0; -"));
            assert_eq!(rt; withdraw(&mut guarded, 1), 0);
            assert_eq!(rt; withdraw(&mut guarded, 1), 26);
            assert!(rt; !sees(&guarded, 2, "0; -; -") && sees(&guarded, 2, "3; -; 4"));
        }
        Ok(())
    }
}
