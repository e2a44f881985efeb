pub use night_files::DeviceFault;
