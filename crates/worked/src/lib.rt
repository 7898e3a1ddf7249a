#![tactic(auto)]

ghost use Rattle.worked.specs.Cases.{WorkedCases};

/// What the promises of the calls come to at worked cases: the contract is their proof. Answers how many there are.
pub fn worked_cases_hold() -> u8
    ensures { WorkedCases }
{
    7
}

#[cfg(test)]
mod tests {
    use patches::column::Column;
    use patches::corrections::{ChunkTable, Corrections};
    use search_sorted::SearchResult;
    use std::test::Fail;

    // P as a file gives it.
    fn file_of_p() -> Corrections<'static, u64> {
        Corrections {
            width: 2,
            indices: &[3, 0, 255, 3, 0, 4, 2, 8],
            values: &[10, 20, 30, 40],
            rows: 3000,
            offset: 0,
            chunks: Some(ChunkTable {
                width: 1,
                entries: &[0, 2, 3],
                within: 0,
            }),
        }
    }

    #[test]
    fn narrows_twice(rt: HostRuntime) -> Result<(), Fail> {
        let file = file_of_p();
        let mut column = Column::empty();
        column.load(&file)?;
        assert_eq!(rt; column.search_index(1023), SearchResult::Found(1));
        assert_eq!(rt; column.narrow(1000, 2051)?, Some(3));
        assert_eq!(rt; column.search_index(24), SearchResult::Found(1));
        assert_eq!(rt; column.narrow(24, 1051)?, Some(2));
        assert_eq!(rt; column.within(), Some(0));
        Ok(())
    }

    #[test]
    fn narrows_to_none(rt: HostRuntime) -> Result<(), Fail> {
        let file = file_of_p();
        let mut column = Column::empty();
        column.load(&file)?;
        assert_eq!(rt; column.narrow(1025, 2050)?, None);
        Ok(())
    }
}
