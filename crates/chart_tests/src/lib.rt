// Tests of charts, at the edges of every limit.
#![tactic(auto)]

#[cfg(test)]
mod tests {
    use chart::{Chart, ChartRefusal, Grade};
    use std::test::Fail;

    // 0 for an accepted call, else the number of the refusal.
    fn code<T: Drop>(answer: Result<T, ChartRefusal>) -> u16 {
        answer.err().map_or(0, |refusal| refusal.number())
    }

    // A chart of so many servers that the caller knows to be allowed.
    fn servers(n: u16) -> Result<Chart, Fail> {
        Chart::new(n).map_err(|_| Fail::new("no chart"))
    }

    // Whether two charts answer alike on every number that may be known, and one beyond.
    fn alike(a: &Chart, b: &Chart) -> bool {
        a.servers() == b.servers()
            && (0..65).all(|i| {
                a.server_of(i) == b.server_of(i)
                    && a.relation_of(i) == b.relation_of(i)
                    && a.width(i) == b.width(i)
                    && a.attributes_of(i) == b.attributes_of(i)
                    && a.ends(i) == b.ends(i)
                    && (0..17).all(|j| a.grade(i, j) == b.grade(i, j))
            })
    }

    #[test]
    fn server_limits(rt: HostRuntime) {
        for (n, expected) in [(0, 10), (1, 0), (16, 0), (17, 10), (65535, 10)] {
            assert_eq!(rt; code(Chart::new(n)), expected);
        }
    }

    #[test]
    fn relation_questions(rt: HostRuntime) -> Result<(), Fail> {
        let mut chart = servers(2)?;
        assert_eq!(rt; code(chart.add_relation(1, &[1, 65535])), 0);
        let before = chart;
        assert_eq!(rt; code(chart.add_relation(2, &[])), 11);
        assert_eq!(rt; code(chart.add_relation(65535, &[4])), 11);
        assert_eq!(rt; code(chart.add_relation(1, &[])), 12);
        assert_eq!(rt; code(chart.add_relation(1, &[4, 0, 4])), 12);
        assert_eq!(rt; code(chart.add_relation(1, &[4; 63])), 13);
        assert!(rt; alike(&chart, &before));
        assert_eq!(rt; chart.width(0), 1);
        assert_eq!(rt; chart.width(1), 65535);
        assert_eq!(rt; chart.width(2), 0);
        assert_eq!(rt; code(chart.add_relation(0, &[4; 62])), 0);
        assert_eq!(rt; code(chart.add_relation(0, &[4])), 13);
        assert_eq!(rt; chart.relation_of(63), Some(1));
        assert_eq!(rt; chart.relation_of(64), None);
        Ok(())
    }

    #[test]
    fn relation_limit(rt: HostRuntime) -> Result<(), Fail> {
        let mut chart = servers(1)?;
        for _ in 0..32 {
            assert_eq!(rt; code(chart.add_relation(0, &[4])), 0);
        }
        let before = chart;
        assert_eq!(rt; code(chart.add_relation(0, &[4])), 13);
        assert!(rt; alike(&chart, &before));
        assert_eq!(rt; chart.server_of(31), Some(0));
        assert_eq!(rt; chart.server_of(32), None);
        Ok(())
    }

    #[test]
    fn link_questions(rt: HostRuntime) -> Result<(), Fail> {
        let mut chart = servers(1)?;
        assert_eq!(rt; code(chart.add_relation(0, &[4, 4])), 0);
        assert_eq!(rt; code(chart.add_relation(0, &[4, 4])), 0);
        assert_eq!(rt; code(chart.add_link(0, 2)), 0);
        let before = chart;
        for (a, b, expected) in [
            (0, 1, 14),
            (0, 0, 14),
            (0, 4, 14),
            (65535, 0, 14),
            (0, 2, 16),
            (2, 0, 16),
        ] {
            assert_eq!(rt; code(chart.add_link(a, b)), expected);
        }
        assert!(rt; alike(&chart, &before));
        assert_eq!(rt; code(chart.add_link(2, 1)), 0);
        assert!(rt; chart.ends(1) != chart.ends(0));
        assert!(rt; chart.ends(2) == None);
        Ok(())
    }

    // Eight attributes on each of two relations have 64 pairs.
    #[test]
    fn link_limit(rt: HostRuntime) -> Result<(), Fail> {
        let mut chart = servers(1)?;
        assert_eq!(rt; code(chart.add_relation(0, &[4; 8])), 0);
        assert_eq!(rt; code(chart.add_relation(0, &[4; 9])), 0);
        for a in 0..8u16 {
            for b in 8..16u16 {
                assert_eq!(rt; code(chart.add_link(a, b)), 0);
            }
        }
        let before = chart;
        assert_eq!(rt; code(chart.add_link(0, 16)), 15);
        assert_eq!(rt; code(chart.add_link(0, 8)), 15);
        assert_eq!(rt; code(chart.add_link(0, 1)), 14);
        assert!(rt; alike(&chart, &before));
        Ok(())
    }

    #[test]
    fn lines(rt: HostRuntime) -> Result<(), Fail> {
        let mut chart = servers(16)?;
        assert!(rt; chart.grade(3, 15) == Grade::Public);
        assert_eq!(rt; code(chart.set_grade(3, 15, Grade::Quay)), 0);
        assert!(rt; chart.grade(3, 15) == Grade::Quay && chart.grade(15, 3) == Grade::Quay);
        assert_eq!(rt; code(chart.set_grade(15, 3, Grade::Leased)), 0);
        assert!(rt; chart.grade(3, 15) == Grade::Leased && chart.grade(3, 14) == Grade::Public);
        let before = chart;
        for (a, b) in [(3, 3), (0, 16), (16, 0), (65535, 1)] {
            assert_eq!(rt; code(chart.set_grade(a, b, Grade::Quay)), 17);
        }
        assert!(rt; alike(&chart, &before));
        assert!(rt; chart.grade(3, 3) == Grade::Public && chart.grade(3, 16) == Grade::Public);
        Ok(())
    }
}
