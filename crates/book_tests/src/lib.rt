//! Tests of timetables, images, books and the binder.
#![tactic(auto)]

#[cfg(test)]
mod agreement;
#[cfg(test)]
mod binding;
#[cfg(test)]
mod chance;
#[cfg(test)]
mod images;
#[cfg(test)]
mod judging;
#[cfg(test)]
mod limits;
#[cfg(test)]
mod making;
#[cfg(test)]
mod opening;
#[cfg(test)]
mod reading;
#[cfg(test)]
mod times;
#[cfg(test)]
mod worked;
