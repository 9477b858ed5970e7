// The link state and its steps. Each step takes the state by value and hands it back.
ghost use Rattle.std.specs.Prelude.{◌≡◌};
ghost use Rattle.link.specs.Steps.{idle, follows_of, advanced, fresh, enabled, connected, synced, dropped, lost, latched, cleared, counted, tolerated};

// Links and flags are numbers and no enums or bools: the public `fields` (stored.rt) hands out what any record holds, valid or not.
pub const DISABLED: u8 = 0;

pub const DISCONNECTED: u8 = 1;

pub const ASYNC_CONNECTED: u8 = 2;

pub const SYNC_CONNECTED: u8 = 3;

// The watchdog's fields: whether MN is known, the last MN, RSN, and how many exchanges in a row failed it.
#[derive(Clone, Copy)]
pub struct Watch {
    // 0 or 1 where the state is valid, and a number as the links are.
    pub known: u8,
    pub last: u8,
    pub rsn: u8,
    pub failures: u8,
}

// The two latched alarms.
#[derive(Clone, Copy)]
pub struct Latches {
    pub command: u8,
    pub communication: u8,
}

#[derive(Clone, Copy)]
pub struct LinkState {
    pub link: u8,
    pub l: u8,
    // 0 or 1 where the state is valid, and a number as the links are.
    pub dual: u8,
    pub com_time: u8,
    pub watch: Watch,
    pub latches: Latches,
}

impl Watch {
    // MN not known, RSN 0: what holds on entry to SyncConnected and outside it.
    pub fn idle() -> Watch
        ensures { result ≡ idle }
    {
        Watch {
            known: 0,
            last: 0,
            rsn: 0,
            failures: 0,
        }
    }

    // Whether the command's WDT octet follows, where MN is known: its low half is the last MN plus 1, its high half RSN, which the master has from our reply.
    #[tactic(auto, unfolding(crate::specs::Steps::follows_of))]
    pub fn follows(self, wdt: u8) -> bool
        ensures { result ≡ follows_of self wdt }
    {
        (self.known == 0)
            | ((wdt as u16 % 16 == (self.last as u16 + 1) % 16) & (wdt / 16 == self.rsn))
    }

    // Behind an exchange in SyncConnected: its MN is the last one, RSN advances modulo 16, and so many failures in a row are counted.
    fn advanced(self, mn: u8, failures: u8) -> Watch
        ensures { result ≡ advanced self mn failures }
    {
        Watch {
            known: 1,
            last: mn,
            rsn: self.rsn.wrapping_add(1) % 16,
            failures,
        }
    }
}

impl LinkState {
    // What reset writes: Disabled, with the sheet's L and zeros.
    pub fn fresh(l: u8) -> LinkState
        ensures { result ≡ fresh l }
    {
        LinkState {
            link: DISABLED,
            l,
            dual: 0,
            com_time: 0,
            watch: Watch::idle(),
            latches: Latches {
                command: 0,
                communication: 0,
            },
        }
    }

    pub fn enabled(self) -> LinkState
        ensures { result ≡ enabled self }
    {
        LinkState {
            link: DISCONNECTED,
            ..self
        }
    }

    // CONNECT: com_time and dual are set, and the link is the asked one; MN is not known there.
    pub fn connected(self, link: u8, dual: u8, com_time: u8) -> LinkState
        ensures { result ≡ connected self link dual com_time }
    {
        LinkState {
            link,
            dual,
            com_time,
            watch: Watch::idle(),
            ..self
        }
    }

    // SYNC_SET: SyncConnected, single transfer.
    pub fn synced(self) -> LinkState
        ensures { result ≡ synced self }
    {
        LinkState {
            link: SYNC_CONNECTED,
            dual: 0,
            watch: Watch::idle(),
            ..self
        }
    }

    // DISCONNECT: Disconnected, com_time 0; the latches are kept.
    pub fn dropped(self) -> LinkState
        ensures { result ≡ dropped self }
    {
        LinkState {
            link: DISCONNECTED,
            dual: 0,
            com_time: 0,
            watch: Watch::idle(),
            ..self
        }
    }

    // A failed watchdog: the communication latch becomes 12, and the link AsyncConnected.
    pub fn lost(self) -> LinkState
        ensures { result ≡ lost self }
    {
        LinkState {
            link: ASYNC_CONNECTED,
            dual: 0,
            watch: Watch::idle(),
            latches: Latches {
                communication: 12,
                ..self.latches
            },
            ..self
        }
    }

    // A refused command: its alarm is latched where no alarm is.
    pub fn latched(mut self, alarm: u8) -> LinkState
        ensures { result ≡ latched self alarm }
    {
        if self.latches.command == 0 {
            self.latches.command = alarm;
        }
        self
    }

    // ALM_CLR: both latches 0.
    pub fn cleared(self) -> LinkState
        ensures { result ≡ cleared self }
    {
        LinkState {
            latches: Latches {
                command: 0,
                communication: 0,
            },
            ..self
        }
    }

    // An exchange that begins and ends in SyncConnected: MN is known, RSN advances modulo 16, and no failure is counted any more.
    pub fn counted(self, mn: u8) -> LinkState
        ensures { result ≡ counted self mn }
    {
        LinkState {
            watch: self.watch.advanced(mn, 0),
            ..self
        }
    }

    // A failed watchdog that the sheet tolerates: counts go on as in step, and one failure more is counted.
    pub fn tolerated(self, mn: u8) -> LinkState
        ensures { result ≡ tolerated self mn }
    {
        LinkState {
            watch: self.watch.advanced(mn, self.watch.failures.wrapping_add(1)),
            ..self
        }
    }
}
