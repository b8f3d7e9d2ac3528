// Tests over the layers: settling, marks, copies, refusals and sheets.
#![tactic(auto)]

#[cfg(test)]
mod copies;
#[cfg(test)]
mod examples;
#[cfg(test)]
mod fixture;
#[cfg(test)]
mod make;
#[cfg(test)]
mod marks;
#[cfg(test)]
mod refusals;
#[cfg(test)]
mod sheets;
