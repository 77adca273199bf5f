//! The site that generations begin with.
ghost use Rattle.std.specs.Arc.{arc_value};
ghost use Rattle.std.specs.Prelude.{◌≡◌, ◌≤◌, None, IfOk, IfSome, OnErr};
ghost use Rattle.sws_site.specs.Limits.{IsWithinOptions};
ghost use Rattle.sws_site.specs.Site.{last_second};
ghost use Rattle.sws_shelf.specs.Dates.{date_of, latest, IsLater, IsLoaded};
ghost use Rattle.sws_shelf.specs.Sites.{site_options};

use crate::dating::{next_date, rest_of_second, time_of};
use crate::notes::Notes;
use std::alloc::{AllocError, Global};
use std::sync::{Arc, Mutex, Wait};
use std::time::Duration;
use std::{fmt, thread};
use sws_files::{FileFolder, FolderMark};
use sws_link::{Folder, Opened};
use sws_site::{Additions, Site, SiteFault, SiteOptions};

/// Why a folder isn't loaded.
#[derive(Clone, Copy, Debug, PartialEq, Eq)]
pub enum LoadFault {
    /// The folder, or a file in it, can't be opened or read.
    Folder,

    /// It has so many files that this one is more than the site holds.
    TooManyFiles { count: u32 },

    /// With this file, counted from 1, it has more bytes than the site holds.
    TooManyBytes { number: u32 },

    /// This file, counted from 1, has a longer name than a site holds.
    LongName { number: u32 },

    /// There was no memory.
    Memory,
}

impl From<AllocError> for LoadFault {
    fn from(_error: AllocError) -> LoadFault {
        LoadFault::Memory
    }
}

impl From<SiteFault> for LoadFault {
    fn from(fault: SiteFault) -> LoadFault {
        match fault {
            SiteFault::TooManyFiles { count } => LoadFault::TooManyFiles { count },
            SiteFault::TooManyBytes { number } => LoadFault::TooManyBytes { number },
            SiteFault::LongName { number } => LoadFault::LongName { number },
            SiteFault::Fault => LoadFault::Folder,
            SiteFault::Memory => LoadFault::Memory,
        }
    }
}

impl fmt::Display for LoadFault {
    fn fmt<W: fmt::Write>(&self, f: &mut fmt::Formatter<W>) -> fmt::Result {
        match self {
            LoadFault::Folder => write!(f, "the folder can't be read"),
            LoadFault::TooManyFiles { count } => write!(
                f,
                "the folder has {count} files or more, and --files allows one less"
            ),
            LoadFault::TooManyBytes { number } => write!(
                f,
                "with file {number} the folder has more bytes than --bytes allows"
            ),
            LoadFault::LongName { number } => {
                write!(f, "the name of file {number} has more than 1,024 bytes")
            }
            LoadFault::Memory => write!(f, "out of memory"),
        }
    }
}

impl LoadFault {
    /// The status of a program that ends with it: as of `sws`.
    pub fn status(self) -> u8 {
        match self {
            LoadFault::Folder => 4,
            LoadFault::TooManyFiles { .. } => 8,
            LoadFault::TooManyBytes { .. } => 8,
            LoadFault::LongName { .. } => 8,
            LoadFault::Memory => 7,
        }
    }
}

/// Where a site comes from, how much it holds, how much of a connection it serves, and what is added
/// to it.
#[derive(Drop)]
pub struct Origin {
    /// The path of the folder.
    pub path: String,

    /// Whether names that begin with a dot are served too, beside `.well-known`.
    pub hidden: bool,

    /// How many requests of a connection are answered, 1 to 65,535.
    pub answers: u16,

    /// How many bytes of a connection count, 1 to 4,294,967,295.
    pub input: u32,

    /// How many files the site holds at most, 1 to 1,048,576.
    pub max_files: u32,

    /// How many bytes they have together at most, 1 to 8,589,934,592.
    pub max_bytes: u64,

    /// What is added to its responses.
    pub added: Additions,
}

/// What the folder looks like.
fn mark_of(rt: &HostRuntime, origin: &Origin) -> Result<FolderMark, LoadFault> {
    match FolderMark::of(rt, origin.path.as_str(), origin.hidden) {
        Ok(mark) => Ok(mark),
        Err(_) => Err(LoadFault::Folder),
    }
}

/// What a site of this server does beyond a plain one: all that it can, with what is added, and it
/// holds as much, and serves as much of a connection, as is asked for.
fn site_options(alloc: Global, origin: &Origin) -> Result<SiteOptions, AllocError>
    ensures { IfOk result (λ options. options ≡ site_options origin.now) }
{
    Ok(SiteOptions {
        removes_dot_segments: true,
        knows_more_types: true,
        sends_not_found_page: true,
        redirects_to_folders: true,
        refuses_ambiguous: true,
        keeps_alive: true,
        reads_if_range: true,
        answers: origin.answers,
        input: origin.input,
        max_files: origin.max_files,
        max_bytes: origin.max_bytes,
        added: origin.added.copy(alloc)?,
    })
}

/// Loads the files of a folder, the hidden ones only where these are asked for, as a site of this
/// date. What can't be read is noted.
fn load(
    rt: &HostRuntime,
    origin: &Origin,
    date: Option<u64>,
    notes: &mut Notes,
) -> Result<Arc<Site>, LoadFault>
    requires { IfSome date (λ secs. secs ≤ last_second) }
    ensures date { IfOk result (λ site. date_of (arc_value site) ≡ date) }
    ensures options { IfOk result (λ site. (arc_value site).options
        ≡ site_options origin.now) }
    ensures within { IfOk result (λ site.
        IsWithinOptions (site_options origin.now) (arc_value site).files) }
{
    *notes = Notes::new(rt.alloc());
    let mut folder = FileFolder::lenient(rt, origin.hidden);
    let site = load_from(rt, origin, date, &mut folder);
    notes.take(&folder);
    match Arc::new(rt.alloc(), site?) {
        Ok(site) => Ok(site),
        Err(_) => Err(LoadFault::Memory),
    }
}

/// Opens the folder, and loads its files as a site of this date.
fn load_from(
    rt: &HostRuntime,
    origin: &Origin,
    date: Option<u64>,
    folder: &mut FileFolder<'_>,
) -> Result<Site, LoadFault>
    requires { IfSome date (λ secs. secs ≤ last_second) }
    ensures date { IfOk result (λ site. date_of site ≡ date) }
    ensures options { IfOk result (λ site. site.options ≡ site_options origin.now) }
    ensures within { IfOk result (λ site.
        IsWithinOptions (site_options origin.now) site.files) }
{
    let options = site_options(rt.alloc(), origin)?;
    match folder.open(origin.path.as_str()) {
        Opened::Ready => Ok(Site::load_with(rt.alloc(), folder, date, options)?),
        Opened::Failed => Err(LoadFault::Folder),
        Opened::Memory => Err(LoadFault::Memory),
    }
}

/// How often a folder may change while it is loaded, before it is taken as it is.
const LOADS: u32 = 3;

/// How many looks go by before a folder that was refused, and hasn't changed since, is tried again.
const LOOKS: u32 = 10;

/// A site, its date, and what its folder looked like before it was loaded.
#[derive(Drop)]
struct Loaded {
    mark: FolderMark,
    date: Option<u64>,
    site: Arc<Site>,
}

/// Loads a folder, as a site whose date is later than the one before, if it has one.
fn load_once(
    rt: &HostRuntime,
    origin: &Origin,
    before: Option<u64>,
    notes: &mut Notes,
) -> Result<Loaded, LoadFault>
    ensures { IfOk result (IsLoaded before origin.now) }
{
    let now = time_of(rt);
    let mark = mark_of(rt, origin)?;
    let date = match now {
        Some(now) => next_date(before, mark.newest(), now.as_secs()),
        None => None,
    };
    let site = load(rt, origin, date, notes)?;
    Ok(Loaded { mark, date, site })
}

/// Loads a folder likewise. Where it changes meanwhile, it is loaded again, a few times at most.
fn load_anew(
    rt: &HostRuntime,
    origin: &Origin,
    before: Option<u64>,
    notes: &mut Notes,
) -> Result<Loaded, LoadFault>
    ensures { IfOk result (IsLoaded before origin.now) }
{
    let mut loaded = load_once(rt, origin, before, notes)?;
    'loads: for _ in 1..LOADS {
        if mark_of(rt, origin)? == loaded.mark {
            break;
        }
        loaded = load_once(rt, origin, before, notes)?;
    }
    Ok(loaded)
}

/// Waits until the clock shows a later second than that of this date, if it shows that one, so that
/// what is loaded then can have a later date.
fn wait_past(rt: &HostRuntime, date: Option<u64>) {
    if let Some(now) = time_of(rt) {
        let rest = rest_of_second(date, now);
        if rest > 0 {
            thread::sleep(rt, Duration::from_millis(rest));
        }
    }
}

/// A look of the folder that was refused, why, and how often it was seen since.
#[derive(Clone, Copy, Drop)]
struct Refused {
    mark: FolderMark,
    fault: LoadFault,
    looks: u32,
}

/// What the folder looked like when the site was loaded, and when it was refused last.
#[derive(Drop)]
struct Marks {
    loaded: FolderMark,
    refused: Option<Refused>,

    /// The date that a site had last.
    date: Option<u64>,
}

impl Marks {
    /// Why a folder that looks like this isn't loaded now: it was refused, not long ago.
    fn refusal(&mut self, now: FolderMark) -> Option<LoadFault> {
        let Some(refused) = &mut self.refused else {
            return None;
        };
        if refused.mark != now || refused.looks >= LOOKS {
            return None;
        }
        refused.looks = refused.looks.saturating_add(1);
        Some(refused.fault)
    }

    /// Loads the folder anew, as a site whose date is later than that of each site before. Where it
    /// is refused, that is noted, with what the folder looked like.
    fn load_anew(
        &mut self,
        rt: &HostRuntime,
        origin: &Origin,
        now: FolderMark,
        notes: &mut Notes,
    ) -> Result<Arc<Site>, LoadFault>
        ensures later { IfOk result (λ site. IfSome (date_of (arc_value site))
            (IsLater self.old.date)) }
        ensures date { IfOk result (λ site. self.new.date
            ≡ latest self.old.date (date_of (arc_value site))) }
        ensures options { IfOk result (λ site. (arc_value site).options
            ≡ site_options origin.now) }
        ensures within { IfOk result (λ site.
            IsWithinOptions (site_options origin.now) (arc_value site).files) }
        ensures refused { OnErr result (self.new.date ≡ self.old.date) }
    {
        wait_past(rt, self.date);
        match load_anew(rt, origin, self.date, notes) {
            Ok(Loaded { mark, date, site }) => {
                self.loaded = mark;
                self.refused = None;
                if date.is_some() {
                    self.date = date;
                }
                Ok(site)
            }
            Err(fault) => {
                self.refused = Some(Refused {
                    mark: now,
                    fault,
                    looks: 0,
                });
                Err(fault)
            }
        }
    }
}

/// The site of a folder, as it was when it was last seen to have changed.
///
/// All lanes share it. One thread looks whether the folder has changed; the others go on with the
/// site that is there.
#[derive(Drop)]
pub struct Shelf {
    origin: Origin,

    /// Whoever holds the lock looks at the folder.
    marks: Mutex<Marks>,
    site: Mutex<Arc<Site>>,
}

impl Shelf {
    /// The site of this folder, loaded now. What can't be read is noted.
    ///
    /// # Errors
    ///
    /// The folder can't be read, or has more than a site holds, or there is no memory for it.
    pub fn new(rt: &HostRuntime, origin: Origin, notes: &mut Notes) -> Result<Shelf, LoadFault> {
        let Loaded { mark, date, site } = load_once(rt, &origin, None, notes)?;
        let marks = Marks {
            loaded: mark,
            refused: None,
            date,
        };
        Ok(Shelf {
            origin,
            marks: Mutex::new(marks),
            site: Mutex::new(site),
        })
    }

    /// The site that is there.
    pub fn site<R: Wait>(&self, rt: &R) -> Result<Arc<Site>, AllocError> {
        Arc::try_clone(&*self.site.lock(rt))
    }

    /// Whether the folder looks as when its site was loaded.
    pub fn is_as_loaded(&self, rt: &HostRuntime) -> bool {
        let Some(marks) = self.marks.try_lock() else {
            return true;
        };
        match mark_of(rt, &self.origin) {
            Ok(now) => now == marks.loaded,
            Err(_) => false,
        }
    }

    /// Looks whether the folder has changed, and loads it anew then, or where that is asked for;
    /// what can't be read is noted. True where that was done; false too where somebody else does it
    /// just now.
    ///
    /// # Errors
    ///
    /// The folder can't be read, or has more than a site holds, or there is no memory for it. The
    /// old site stays. The folder is tried again once it looks otherwise, and at the tenth look.
    pub fn look<R: Wait>(
        &self,
        rt: &HostRuntime,
        threads: &R,
        is_asked: bool,
        notes: &mut Notes,
    ) -> Result<bool, LoadFault> {
        let Some(mut marks) = self.marks.try_lock() else {
            return Ok(false);
        };
        let marks = &mut *marks;
        let now = mark_of(rt, &self.origin)?;
        if !is_asked {
            if now == marks.loaded {
                marks.refused = None;
                return Ok(false);
            }
            if let Some(fault) = marks.refusal(now) {
                return Err(fault);
            }
        }
        let site = marks.load_anew(rt, &self.origin, now, notes)?;
        *self.site.lock(threads) = site;
        Ok(true)
    }
}
