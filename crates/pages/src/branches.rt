// Tees.

use crate::stopped::Stopped;
use sources::List;
use tee::Tee;

pub(crate) fn tee(rt: &HostRuntime) -> Result<(), Stopped> {
    let mut store = [0; 3];
    let mut branches = Tee::new(List::new(&[360, 370, 400]), None, store.len())?;
    for branch in [0, 0, 1, 0, 1] {
        if let Some(start) = branches.step(branch, &mut store)?.item() {
            println!(rt; "branch {branch}: {start}")?;
        }
    }
    Ok(())
}

pub(crate) fn tee_refused(rt: &HostRuntime) -> Result<(), Stopped> {
    let mut store = [0; 1];
    let mut branches = Tee::new(List::new(&[360, 370]), None, store.len())?;
    println!(rt; "{:?}", branches.step(0, &mut store))?;
    println!(rt; "{:?}", branches.step(0, &mut store))?;
    println!(rt; "{:?}", branches.step(1, &mut store))?;
    Ok(())
}
