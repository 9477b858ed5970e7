// A drive as its files have it, and as a replay leaves it.
use replay::answers::Stop;
use slave::answers::Refusal;

// The sheet, the state record and the memory.
#[derive(Drop)]
pub struct Drive<'a> {
    pub sheet: &'a [u8],
    pub state: &'a mut [u8],
    pub memory: &'a mut [u8],
}

impl Drive<'_> {
    // The records of a part of a trace, up to the first that differs.
    pub fn replay(&mut self, trace: &[u8]) -> Result<u32, Stop> {
        replay::playing::replay(self.sheet, self.state, self.memory, trace)
    }

    // One exchange.
    pub fn exchange(&mut self, command: &[u8], reply: &mut [u8]) -> Result<u32, Refusal> {
        slave::exchanging::exchange(self.sheet, self.state, self.memory, command, reply)
    }
}
