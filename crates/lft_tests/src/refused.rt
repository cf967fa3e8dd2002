//! Growths of memory that are refused. These tests take all that the process can have. Under `rt try`, whose allocator
//! is another one, they have no answer.

#[cfg(test)]
mod growths;
#[cfg(test)]
mod hoard;
