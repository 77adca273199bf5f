//! The site of a run.
ghost use Rattle.std.specs.Prelude.{◌≡◌};
ghost use Rattle.sws_top.specs.Ranges.{IsDate};
ghost use Rattle.sws_top.specs.Faults.{site_fault_of};
ghost use Rattle.sws_top.specs.Sites.{OpensSite};

use crate::faults::{SiteLimit, TopFault};
use std::alloc::Global;
use sws_link::{Folder, Opened};
use sws_site::{Site, SiteFault};

/// Opens the folder at the path, and loads its files, which were last modified at this
/// date where one is given.
pub fn open_site<F: Folder>(
    alloc: Global,
    path: &str,
    date: Option<u64>,
    folder: &mut F,
) -> Result<Site, TopFault>
    requires { IsDate date }
    ensures { OpensSite F.Folder path.now folder.old folder.new date result }
{
    match folder.open(path) {
        Opened::Ready => {}
        Opened::Failed => return Err(TopFault::ReadFault),
        Opened::Memory => return Err(TopFault::Memory),
    }
    match Site::load(alloc, folder, date) {
        Ok(site) => Ok(site),
        Err(fault) => Err(site_fault(fault)),
    }
}

/// The fault of a run whose site was not loaded.
fn site_fault(fault: SiteFault) -> TopFault
    ensures { result ≡ site_fault_of fault }
{
    match fault {
        SiteFault::TooManyFiles { count } => TopFault::SiteFull(SiteLimit::Files { count }),
        SiteFault::TooManyBytes { number } => TopFault::SiteFull(SiteLimit::Bytes { number }),
        SiteFault::LongName { number } => TopFault::SiteFull(SiteLimit::Name { number }),
        SiteFault::Fault => TopFault::ReadFault,
        SiteFault::Memory => TopFault::Memory,
    }
}
