mod forks;
mod pairs;
mod runs;
