mod line;
mod reader;
mod shows;
mod text;
