// Groups.

use crate::stopped::Stopped;
use groups::{GroupBy, Grouper};
use rules::Itself;
use sources::List;
use steps::{Answer, Steps};

pub(crate) fn groupby(rt: &HostRuntime) -> Result<(), Stopped> {
    let mut groups = GroupBy::new(List::new(&[5, 5, 6, 5]), Itself);
    for _ in 0..u64::MAX {
        let Answer::Item((key, number)) = groups.group()? else {
            break;
        };
        println!(rt; "group {key}")?;
        for item in Steps(Grouper::new(&mut groups, number)) {
            println!(rt; "{}", item?)?;
        }
    }
    Ok(())
}
