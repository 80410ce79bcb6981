// Families of levels: codes, their join, and the script operator that joins them.
#![tactic(auto)]

mod family;
mod ladder;
mod parties;

pub use family::{LevelFamily, flows, join_number};
pub use ladder::Ladder;
pub use parties::Parties;

#[cfg(test)]
mod tests {
    use super::*;

    #[test]
    fn the_ladder(rt: HostRuntime) {
        assert_eq!(rt; Ladder.join(3, 15), Some(15));
        assert_eq!(rt; Ladder.join(3, 16), None);
        assert!(rt; flows(&Ladder, 2, 5) && !flows(&Ladder, 5, 2));
        assert_eq!(rt; join_number(&Ladder), 6);
    }

    #[test]
    fn the_parties(rt: HostRuntime) {
        assert_eq!(rt; Parties.join(1, 2), Some(3));
        assert_eq!(rt; Parties.join(65535, 65536), None);
        assert!(rt; flows(&Parties, 1, 3) && !flows(&Parties, 1, 2));
        assert_eq!(rt; join_number(&Parties), 7);
    }
}
