//! All lanes of the program, from the listener to the totals.
ghost use Rattle.std.specs.Prelude.{◌≡◌};
ghost use Rattle.sws_lane.specs.Terms.{AreTerms, IsBetween, IsInShape};
ghost use Rattle.sws_daemon.specs.Orders.{shape_by, terms_by};
ghost use Rattle.sws_daemon.specs.Sums.{sum_of};

use crate::clerk::{LineClerk, LogDesk};
use crate::keeper::{Common, LaneKeeper};
use crate::saying::Voice;
use crate::watching::{Curfew, Watch};
use mely_history::Shape;
use std::alloc::AllocError;
use std::net::{IpAddr, SocketAddr, TcpListener};
use std::rt::Clock;
use std::sync::{Arc, Wait};
use std::thread::{self, Threads};
use std::{fmt, io};
use sws_files::ReloadFile;
use sws_lane::{Lane, Terms, Totals, keep_serving};
use sws_net::{Door, Entrance, Guests, LaneWorld, StopFile, listen};
use sws_outbox::Outbox;
use sws_shelf::{LoadFault, Notes, Origin, Shelf};
use swsd_words::{LogFault, LogFormat, Order};

/// Why a folder can't be served.
#[derive(Debug, Drop)]
pub enum ServeFault {
    /// Nobody can connect at this address.
    Listen(SocketAddr, io::Error),

    /// The machine says nothing of a listener.
    Listener(io::Error),

    /// The folder can't be loaded.
    Load(LoadFault),

    /// There was no memory.
    Memory,
}

impl From<AllocError> for ServeFault {
    fn from(_error: AllocError) -> ServeFault {
        ServeFault::Memory
    }
}

impl From<LoadFault> for ServeFault {
    fn from(fault: LoadFault) -> ServeFault {
        ServeFault::Load(fault)
    }
}

impl From<io::Error> for ServeFault {
    fn from(error: io::Error) -> ServeFault {
        ServeFault::Listener(error)
    }
}

impl fmt::Display for ServeFault {
    fn fmt<W: fmt::Write>(&self, f: &mut fmt::Formatter<W>) -> fmt::Result {
        match self {
            ServeFault::Listen(address, error) => write!(f, "can't listen at {address}: {error}"),
            ServeFault::Listener(error) => write!(f, "can't listen: {error}"),
            ServeFault::Load(fault) => write!(f, "can't serve: {fault}"),
            ServeFault::Memory => write!(f, "out of memory"),
        }
    }
}

impl ServeFault {
    /// The status of a program that ends with it: as of `sws`.
    pub fn status(&self) -> u8 {
        match self {
            ServeFault::Listen(_, _) => 6,
            ServeFault::Listener(_) => 6,
            ServeFault::Load(fault) => fault.status(),
            ServeFault::Memory => 7,
        }
    }
}

/// What has come of all lanes.
#[derive(Clone, Copy, Debug, PartialEq, Eq)]
pub struct Served {
    pub totals: Totals,

    /// How many connections were closed as they came, since their address had as many as it may,
    /// where that is counted.
    pub refused: Option<u64>,

    /// The status of the fault by which the program ends, where it does by one: no lane was able to
    /// serve at all, or the log can't be written.
    pub fault: Option<u8>,
}

/// A lane at work.
#[derive(Drop)]
struct Job<'d, T: Wait + Clock> {
    lane: Lane<LaneWorld<'d>, LaneKeeper<'d, T>>,
    terms: Terms,
    desk: LogDesk<'d, T>,
    ghost in_range: { AreTerms terms },
}

/// The shape that serves best by so many workers.
fn shape_of(workers: u16) -> Shape
    requires { IsBetween 1 64 workers }
    ensures range { IsInShape result }
    ensures exactly { result ≡ shape_by workers }
{
    let is_alone = workers == 1;
    Shape {
        cores: workers,
        shards: if is_alone { 1 } else { 64 },
        batch: 10,
        steal_cost: if is_alone { 20 } else { 9 },
        group: 4,
    }
}

/// How generations are served: by at least one worker, and at most as many as a run has, in the
/// shape that serves best by so many, and with at least one connection.
fn terms_of(order: &Order) -> Terms
    ensures range { AreTerms result }
    ensures exactly { result ≡ terms_by order.now }
{
    let cores = order.workers.max(1).min(64);
    Terms {
        port: order.listen.port(),
        connections: order.connections.max(1).min(1024),
        shape: shape_of(cores),
        log: order.log.is_some(),
    }
}

/// Serves one generation after another. Where one has lost its world, the next has a new one.
fn serve_lane<T: AllocGlobal + Threads + Wait + Sync + Clock>(threads: &T, job: &mut Job<'_, T>) {
    for _ in threads.forever() {
        let (alloc, desk) = (threads.alloc(), job.desk);
        keep_serving::<T, LaneWorld<'_>, LaneKeeper<'_, T>, LineClerk<'_, T>>(
            threads,
            alloc,
            &job.terms,
            desk,
            &mut job.lane,
        );
        if job.lane.world.is_some() {
            return;
        }
        job.lane.world = job.lane.keeper.new_world();
        if job.lane.world.is_none() {
            return;
        }
    }
}

/// Listens where the order says, and serves its folder until its stop file is there.
///
/// # Errors
///
/// `Listen` where nobody can connect at an address, `Load` where the folder can't be loaded, and `Memory`
/// where an allocation was refused before the first generation.
pub fn serve_folder<T: AllocGlobal + Threads + Wait + Sync + Clock>(
    rt: &HostRuntime,
    threads: &T,
    order: Order,
    outbox: &Outbox,
) -> Result<Served, ServeFault> {
    let listeners = listen_all(rt, &order)?;
    serve_at(rt, threads, order, &listeners, outbox)
}

/// Listens at this address, and keeps its listeners behind those that are there.
fn listen_at(
    rt: &HostRuntime,
    address: SocketAddr,
    listeners: &mut Vec<TcpListener>,
) -> Result<(), ServeFault> {
    match listen(rt, address, listeners) {
        Ok(()) => Ok(()),
        Err(error) => Err(ServeFault::Listen(address, error)),
    }
}

/// Listens wherever the order says, its first address first.
fn listen_all(rt: &HostRuntime, order: &Order) -> Result<Vec<TcpListener>, ServeFault> {
    let mut listeners = Vec::new(rt.alloc());
    listen_at(rt, order.listen, &mut listeners)?;
    for address in &order.listen_too {
        listen_at(rt, *address, &mut listeners)?;
    }
    Ok(listeners)
}

/// What all lanes share: the site, the door, the file that tells them to stop, the one that lets the
/// folder be loaded anew, how often it is looked at, whether they stop where the log can't be
/// written, what they count, and what tells the watch that they have ended.
#[derive(Drop)]
struct House {
    shelf: Shelf,
    door: Door,
    stop: Option<StopFile>,
    reload: Option<ReloadFile>,
    look: u64,
    stops_unlogged: bool,
    common: Common,
    curfew: Curfew,
}

/// Who counts the connections of each address, where the order says how many one may have.
fn guests_of(rt: &HostRuntime, order: &Order) -> Result<Option<Arc<Guests>>, AllocError> {
    let alloc = rt.alloc();
    match order.per_address {
        None => Ok(None),
        Some(most) => {
            let guests = Guests::new(alloc, most, &order.fronts)?;
            Ok(Some(Arc::new(alloc, guests)?))
        }
    }
}

/// What an order says of a house, beside what its lanes count.
#[derive(Drop)]
struct Plan {
    origin: Origin,
    stop: Option<StopFile>,
    reload: Option<ReloadFile>,
    look: u64,
    stops_unlogged: bool,
    proxies: Vec<IpAddr>,
}

impl Plan {
    /// The plan of the order. Whoever asks by the reload file from now on sees what the folder has
    /// then.
    fn of(rt: &HostRuntime, order: Order) -> Plan {
        let reload = order.reload_file.map(|path| ReloadFile::new(rt, path));
        let stop = order.stop_file.map(StopFile::new);
        Plan {
            origin: Origin {
                path: order.folder,
                hidden: order.hidden,
                answers: order.answers,
                input: order.input,
                max_files: order.max_files,
                max_bytes: order.max_bytes,
                added: order.added,
            },
            stop,
            reload,
            look: order.look,
            stops_unlogged: order.log_fault == LogFault::Stop,
            proxies: order.proxies,
        }
    }
}

/// The site of a house, and its door.
#[derive(Drop)]
struct Premises {
    shelf: Shelf,
    door: Door,
}

impl Premises {
    /// The folder is loaded, and the door is open for so many lanes, of which so many may be behind
    /// it.
    fn open<T: Wait>(
        rt: &HostRuntime,
        origin: Origin,
        lanes: u16,
        accepting: u16,
        voice: &Voice<'_, T>,
    ) -> Result<Premises, ServeFault> {
        let shelf = load(rt, origin, voice)?;
        let door = Door::new(rt.alloc(), usize::from(lanes), usize::from(accepting))?;
        Ok(Premises { shelf, door })
    }
}

/// Loads a folder, and says what is to be noted of that.
fn load<T: Wait>(
    rt: &HostRuntime,
    origin: Origin,
    voice: &Voice<'_, T>,
) -> Result<Shelf, LoadFault> {
    let mut notes = Notes::new(rt.alloc());
    let shelf = Shelf::new(rt, origin, &mut notes);
    voice.warn_of_notes(&notes);
    shelf
}

impl House {
    /// The folder of the order is loaded, and its door is open.
    ///
    /// # Errors
    ///
    /// `Load` where the folder can't be loaded, and `Memory` where an allocation was refused.
    fn new<T: Wait>(
        rt: &HostRuntime,
        order: Order,
        voice: &Voice<'_, T>,
    ) -> Result<House, ServeFault> {
        let guests = guests_of(rt, &order)?;
        let (lanes, accepting) = (order.lanes, order.accepting);
        let Plan {
            origin,
            stop,
            reload,
            look,
            stops_unlogged,
            proxies,
        } = Plan::of(rt, order);
        let common = Common::new(lanes, accepting, guests, proxies);
        let Premises { shelf, door } = Premises::open(rt, origin, lanes, accepting, voice)?;
        Ok(House {
            shelf,
            door,
            stop,
            reload,
            look,
            stops_unlogged,
            common,
            curfew: Curfew::new(),
        })
    }

    /// What worlds need to know, of which each takes connections for so many seconds, and cuts
    /// those that are left after so many more.
    fn entrance<'d>(&'d self, listeners: &'d [TcpListener], age: u64, grace: u64) -> Entrance<'d> {
        let stop = self.stop.as_ref();
        let (age, grace) = (age.saturating_mul(1000), grace.saturating_mul(1000));
        Entrance {
            door: &self.door,
            listeners,
            stop,
            age,
            grace,
        }
    }
}

/// The lane of this number.
fn lane_of<'d, T: Wait + Clock>(
    rt: &'d HostRuntime,
    threads: &'d T,
    house: &'d House,
    entrance: Entrance<'d>,
    voice: &Voice<'d, T>,
    number: usize,
) -> Result<Lane<LaneWorld<'d>, LaneKeeper<'d, T>>, AllocError> {
    let (shelf, common) = (&house.shelf, &house.common);
    let keeper = LaneKeeper::new(rt, threads, entrance, number, shelf, voice.again(), common)?;
    let world = LaneWorld::of_requests(rt, entrance, number, common.guests(), common.proxies())?;
    Ok(Lane::new(world, keeper))
}

/// A lane for each number below this, at work by these terms.
///
/// # Errors
///
/// There was no memory.
fn jobs_of<'d, T: Wait + Clock>(
    rt: &'d HostRuntime,
    threads: &'d T,
    house: &'d House,
    entrance: Entrance<'d>,
    voice: &Voice<'d, T>,
    lanes: u16,
    terms: Terms,
    desk: LogDesk<'d, T>,
) -> Result<Vec<Job<'d, T>>, ServeFault>
    requires { AreTerms terms }
{
    let mut jobs = Vec::new(rt.alloc());
    'lanes: for number in 0..lanes {
        let lane = lane_of(rt, threads, house, entrance, voice, usize::from(number))?;
        if jobs.push(Job { lane, terms, desk }).is_err() {
            return Err(ServeFault::Memory);
        }
    }
    Ok(jobs)
}

/// Runs all lanes, each in a thread of its own, until all have ended, and tells the watch then.
fn run_jobs<T: AllocGlobal + Threads + Wait + Sync + Clock>(
    threads: &T,
    curfew: &Curfew,
    jobs: &mut [Job<'_, T>],
) {
    let count = jobs.len().max(1);
    thread::for_each_mut(threads, jobs, count, &|_, job| serve_lane(threads, job));
    curfew.ring(threads);
}

/// Runs all lanes, while a thread of its own looks whether the folder has changed.
fn run_house<'d, T: AllocGlobal + Threads + Wait + Sync + Clock>(
    rt: &'d HostRuntime,
    threads: &'d T,
    house: &'d House,
    voice: &Voice<'d, T>,
    jobs: &mut [Job<'d, T>],
) {
    let (stop, reload) = (house.stop.as_ref(), house.reload.as_ref());
    let (shelf, door, common) = (&house.shelf, &house.door, &house.common);
    let (look, stops, voice) = (house.look, house.stops_unlogged, voice.again());
    let watch = Watch::new(
        rt, threads, shelf, door, stop, reload, look, stops, common, voice,
    );
    let curfew = &house.curfew;
    thread::join(
        threads,
        || watch.keep(curfew),
        || run_jobs(threads, curfew, jobs),
    );
}

/// Where it listens, which doesn't block from now on.
fn address_of(listener: &TcpListener) -> io::Result<SocketAddr> {
    listener.set_nonblocking(true)?;
    listener.local_addr()
}

/// Where they listen, none of which blocks from now on.
fn addresses_of(
    rt: &HostRuntime,
    listeners: &[TcpListener],
) -> Result<Vec<SocketAddr>, ServeFault> {
    let mut addresses = Vec::new(rt.alloc());
    for listener in listeners {
        let address = address_of(listener)?;
        if addresses.push(address).is_err() {
            return Err(ServeFault::Memory);
        }
    }
    Ok(addresses)
}

/// Serves the folder of the order at these listeners. What is said is left in the outbox.
///
/// # Errors
///
/// As of [`serve_folder`].
pub fn serve_at<'x, T: AllocGlobal + Threads + Wait + Sync + Clock>(
    rt: &'x HostRuntime,
    threads: &'x T,
    order: Order,
    listeners: &'x [TcpListener],
    outbox: &'x Outbox,
) -> Result<Served, ServeFault> {
    let addresses = addresses_of(rt, listeners)?;
    let terms = terms_of(&order);
    let voice = Voice::new(threads, outbox, order.quiet);
    let desk = LogDesk {
        rt,
        threads,
        outbox,
        format: order.log.unwrap_or(LogFormat::Combined),
    };
    let (lanes, accepting) = (order.lanes, order.accepting);
    let (age, grace) = (order.age, order.grace);
    let house = House::new(rt, order, &voice)?;
    let entrance = house.entrance(listeners, age, grace);
    let jobs = jobs_of(rt, threads, &house, entrance, &voice, lanes, terms, desk)?;
    voice.tell_of_start(&addresses, lanes, accepting, terms.shape.cores);
    Ok(serve_all(rt, threads, &house, &voice, jobs))
}

/// Runs all lanes to their ends, and answers what has come of them.
fn serve_all<'d, T: AllocGlobal + Threads + Wait + Sync + Clock>(
    rt: &'d HostRuntime,
    threads: &'d T,
    house: &'d House,
    voice: &Voice<'d, T>,
    jobs: Vec<Job<'d, T>>,
) -> Served {
    let mut jobs = jobs;
    run_house(rt, threads, house, voice, jobs.as_mut_slice());
    Served {
        totals: sum_up(&jobs),
        refused: house.common.refused(),
        fault: house.common.fault(),
    }
}

/// What has come of all lanes.
fn sum_up<T: Wait + Clock>(jobs: &[Job<'_, T>]) -> Totals
    ensures { result ≡ sum_of (λ job. job.lane.totals) jobs.now }
{
    let mut totals = Totals::new();
    'lanes: for job in jobs {
        totals.add(&job.lane.totals);
    }
    totals
}
