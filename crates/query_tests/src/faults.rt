//! Devices that fail, and indexes at fault.
mod failing_devices;
mod lines;
