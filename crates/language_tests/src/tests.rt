mod lexer;
mod parser;
