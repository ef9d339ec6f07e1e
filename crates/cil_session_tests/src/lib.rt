//! Tests of what no script, no trial and no command shows: values of public calls on stores and sessions with ample memory, and the
//! command line where devices fail after some bytes or growths are refused.
#![tactic(auto)]

#[cfg(test)]
mod commands;
#[cfg(test)]
mod replies;
#[cfg(test)]
mod shown;
#[cfg(test)]
mod stores;
