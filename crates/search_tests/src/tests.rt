mod countdowns;
mod masks;
mod numbers;
mod searches;
mod texts;
