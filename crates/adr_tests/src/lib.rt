#![tactic(auto)]
//! Tests of what no script and no stored run shows. By what public functions answer: numbers, moments and bodies behind
//! the shield, jobs, seats, the index and the timeline, copies of objects. Of whole runs: streams that give and take
//! little and that fail, bytes that no transcript holds, readers in threads of their own. Of desks: workers that run at
//! once.

#[cfg(test)]
mod decimals;
#[cfg(test)]
mod fans;
#[cfg(test)]
mod faults;
#[cfg(test)]
mod index;
#[cfg(test)]
mod jobs;
#[cfg(test)]
mod moments;
#[cfg(test)]
mod objects;
#[cfg(test)]
mod rows;
#[cfg(test)]
mod runs;
#[cfg(test)]
mod scripts;
#[cfg(test)]
mod seats;
#[cfg(test)]
mod shields;
#[cfg(test)]
mod spans;
#[cfg(test)]
mod streams;
#[cfg(test)]
mod timeline;
#[cfg(test)]
mod workers;
