#![tactic(auto)]
//! Whole runs of the program on small files, with what they write. The expected texts were worked
//! out from the definitions, by hand and by a model of its own.

#[cfg(test)]
mod commands;
#[cfg(test)]
mod files;
#[cfg(test)]
mod forests;
#[cfg(test)]
mod kinds;
#[cfg(test)]
mod marks;
#[cfg(test)]
mod meshes;
#[cfg(test)]
mod restarts;
#[cfg(test)]
mod run;
#[cfg(test)]
mod soaks;
#[cfg(test)]
mod square_texts;
#[cfg(test)]
mod tests;
#[cfg(test)]
mod texts;
#[cfg(test)]
mod values;
