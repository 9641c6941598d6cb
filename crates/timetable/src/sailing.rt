// One trip of a barge between two quays, every day at the same minutes. `leg` counts along its run.
#[derive(Clone, Copy, PartialEq, Debug)]
pub struct Sailing {
    pub run: u16,
    pub leg: u16,
    pub from: u16,
    pub to: u16,
    pub dep: u16,
    pub arr: u16,
}
