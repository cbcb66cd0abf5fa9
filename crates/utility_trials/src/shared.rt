// What threads may share.
use std::marker::{Send, Sync};

pub fn can_be_shared<T: Send + Sync>(_: &T) {}
