//! Texts of schemas with what they say, layouts, pointers and canonical texts, and a schema of the greatest size.

mod ample;
mod layouts;
mod printing;
mod reading;
mod samples;
