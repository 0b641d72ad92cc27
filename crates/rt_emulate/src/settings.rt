// What an emulator is to do.
ghost use Rattle.std.specs.Prelude.{◌≡◌, ◌∷◌, [], None, map, option_map, string_bytes};
ghost use Rattle.std.specs.Net.Addr.{IsV4And, ipv4_octets};
ghost use Rattle.rt_emulate.specs.Levels.{level_of, says, word_of};
ghost use Rattle.rt_emulate.specs.declared.settings.Halt.TheVariants.{NoMemory};

use rt_peer::PeerError;
use rt_tree::{Path, Tree};
use std::alloc::AllocError;
use std::marker::Model;
use std::net::{IpAddr, Ipv4Addr};

/// What an emulator is to do.
#[derive(Debug)]
pub struct Emulating {
    pub(crate) host: IpAddr,
    pub(crate) port: u16,
    pub(crate) count: Option<u16>,
    pub(crate) tree: Tree,
    pub(crate) seed: Option<String>,
    pub(crate) file: Option<String>,
    pub(crate) is_synced: bool,
    pub(crate) denied: Vec<Path>,
    pub(crate) origins: Vec<String>,
    pub(crate) public: Option<String>,
    pub(crate) page: Option<String>,
}

impl Drop for Emulating {
    fn drop(self) {
        let Emulating {
            host: _,
            port: _,
            count: _,
            tree: _,
            seed: _,
            file: _,
            is_synced: _,
            denied: _,
            origins: _,
            public: _,
            page: _,
        } = self;
    }
}

impl Model for Emulating {
    ghost use Rattle.std.specs.Prelude.{map, option_map, string_bytes};
    ghost use Rattle.rt_emulate.specs.Emulating.{Emulation};

    ghost Value = { Emulation };

    ghost view = { λ e. record {
      host = e.host;
      port = e.port;
      count = e.count;
      tree = e.tree;
      seed = option_map string_bytes e.seed;
      file = option_map string_bytes e.file;
      is_synced = e.is_synced;
      denied = e.denied.items;
      origins = map string_bytes e.origins.items;
      public = option_map string_bytes e.public;
      page = option_map string_bytes e.page;
    } };
}

impl Emulating {
    /// A tree is served at the port of 127.0.0.1, until so many connections have gone, if that is given.
    /// The first tree is that of the file, where there is one, and the tree is kept in it: where that is
    /// synced, each write is on the disk before anybody hears of it. The paths are denied, as at
    /// [`rt_peer::Peer::new`], and web pages of these origins may connect, beside those of this machine.
    pub fn new(
        port: u16,
        count: Option<u16>,
        tree: Tree,
        file: Option<String>,
        is_synced: bool,
        denied: Vec<Path>,
        origins: Vec<String>,
    ) -> Emulating
        ensures local { IsV4And result.host (λ a. ipv4_octets a ≡ 127 ∷ 0 ∷ 0 ∷ 1 ∷ []) }
        ensures given { result ≡ record {
          host = result.host;
          port = port;
          count = count;
          tree = tree;
          seed = None;
          file = option_map string_bytes file;
          is_synced = is_synced;
          denied = denied.items;
          origins = map string_bytes origins.items;
          public = None;
          page = None;
        } }
    {
        Emulating {
            host: IpAddr::V4(Ipv4Addr::new(127, 0, 0, 1)),
            port,
            count,
            tree,
            seed: None,
            file,
            is_synced,
            denied,
            origins,
            public: None,
            page: None,
        }
    }

    /// It is served at the port of that address in place of 127.0.0.1. Whoever reaches another machine's
    /// address can read and write all of it but what is denied: there is no login, and no TLS.
    pub fn at(mut self, host: IpAddr) -> Emulating
        ensures { result ≡ record self { host = host } }
    {
        self.host = host;
        self
    }

    /// The first tree is that of the seed, where there is one: a file that is read once, and never written.
    pub fn seeded(mut self, seed: Option<String>) -> Emulating
        ensures { result ≡ record self { seed = option_map string_bytes seed } }
    {
        self.seed = seed;
        self
    }

    /// The files of these folders are served too, by plain HTTP, where such are given: those of an
    /// application, and behind them those of the tree's page, of which `examples/tree/index.html` is at
    /// `/`.
    pub fn serving(mut self, public: Option<String>, page: Option<String>) -> Emulating
        ensures { result ≡ record self {
          public = option_map string_bytes public;
          page = option_map string_bytes page;
        } }
    {
        self.public = public;
        self.page = page;
        self
    }

    // The tree, the paths that are denied, and the origins.
    pub(crate) fn into_parts(self) -> (Tree, Vec<Path>, Vec<String>)
        ensures { (result.0 ≡ self.tree) × (result.1.items ≡ self.denied)
            × (map string_bytes result.2.items ≡ self.origins) }
    {
        let Emulating {
            host: _,
            port: _,
            count: _,
            tree: first,
            seed: _,
            file: _,
            is_synced: _,
            denied: paths,
            origins: all,
            public: _,
            page: _,
        } = self;
        (first, paths, all)
    }
}

// ---- which lines are said

/// Which lines an emulator says of itself.
#[derive(Clone, Copy, Debug, PartialEq, Eq)]
pub enum Level {
    /// Each message, too.
    All,
    /// Connections that begin and end, and faults.
    Connections,
    /// Faults alone.
    Faults,
    /// None.
    Nothing,
}

/// What a line is of.
#[derive(Clone, Copy)]
pub(crate) enum Kind {
    /// What a client sends, and is refused.
    Message,
    /// A connection, and the port.
    Connection,
    /// A fault, and what may harm.
    Fault,
}

impl Level {
    /// The level of that name.
    pub fn of(word: &str) -> Option<Level>
        ensures { result ≡ level_of word.now }
    {
        match word {
            "all" => Some(Level::All),
            "connections" => Some(Level::Connections),
            "faults" => Some(Level::Faults),
            "none" => Some(Level::Nothing),
            _ => None,
        }
    }

    /// Whether a line of that kind is said.
    pub(crate) fn says(self, kind: Kind) -> bool
        ensures { result ≡ says self kind }
    {
        match (self, kind) {
            (Level::All, Kind::Message | Kind::Connection | Kind::Fault) => true,
            (Level::Connections, Kind::Connection | Kind::Fault) => true,
            (Level::Connections, Kind::Message) => false,
            (Level::Faults, Kind::Fault) => true,
            (Level::Faults, Kind::Message | Kind::Connection) => false,
            (Level::Nothing, Kind::Message | Kind::Connection | Kind::Fault) => false,
        }
    }
}

impl Kind {
    /// The least level at which such a line is said, by its name.
    pub(crate) fn word(self) -> &'static str
        ensures { result.now ≡ word_of self }
    {
        match self {
            Kind::Message => "all",
            Kind::Connection => "connections",
            Kind::Fault => "faults",
        }
    }
}

// ---- why turns end early

/// Why turns end early, in a value that owns nothing.
#[derive(Clone, Copy)]
pub(crate) enum Halt {
    /// Memory lacks.
    NoMemory,
    /// The tree's file or its journal can't be kept: who keeps it has the fault.
    Unkept,
}

impl From<AllocError> for Halt {
    ghost from_gives = { λ _ e. e ≡ NoMemory };

    fn from(_error: AllocError) -> Halt {
        Halt::NoMemory
    }
}

// What a hub is asked for is refused only where memory lacks: its connections are those that it named.
impl From<PeerError> for Halt {
    ghost from_gives = { λ _ e. e ≡ NoMemory };

    fn from(error: PeerError) -> Halt {
        match error {
            PeerError::Failed | PeerError::NoMemory | PeerError::UnknownConnection => {
                Halt::NoMemory
            }
        }
    }
}
